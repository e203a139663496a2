//! The end of a session.

ghost use Rattle.std.specs.Prelude.{◌≡◌, ◌<◌, ◌≤◌, ℕ, Some, None, false};
ghost use Rattle.usb_kernel.specs.Extends.{Extends};
ghost use Rattle.usb_kernel.specs.ClaimLaws.{is_claimed};
ghost use Rattle.usb_kernel.specs.Legal.{IsLawful};
ghost use Rattle.usb_device_host.specs.Finishes.{HasEnds, HasCompletions, KeepsNothing};
ghost use Rattle.usb_device_tables.specs.History.{value_at};
ghost use Rattle.usb_session_calls.specs.State.{State};
ghost use Rattle.usb_session_calls.specs.Names.{named, freed};
ghost use Rattle.usb_session.specs.Ends.{clients_closed, readers_closed, writers_closed, streams_closed, endpoints_closed, futures_closed, interfaces_closed, devices_closed, ended};
ghost use Rattle.usb_session_calls.specs.Relation.{Represents};
ghost use Rattle.usb_session_calls.specs.SessionState.{open_under};

use crate::session::Session;
use usb_device::Host;
use usb_script_lines::Name;
use usb_session_calls::drop_names;

impl Session {
    /// Closes the clients of messages by number.
    fn close_clients(&mut self)
        ensures stands { (state : State) → Represents self.old state →
            Represents self.new (clients_closed state 64) }
        ensures none { (m : ℕ) → m < 64 → named self.new.clients m ≡ None }
    {
        for number in 0..64 {
            let Some(name) = Name::new(number) else {
                unreachable!()
            };
            self.close_client_at(name);
        }
    }

    /// Closes the readers by number.
    fn close_readers(&mut self)
        ensures stands { (state : State) → Represents self.old state →
            Represents self.new (readers_closed state 64) }
        ensures none { (r : ℕ) → r < 64 → named self.new.readers r ≡ None }
        ensures clients { self.new.clients ≡ self.old.clients }
    {
        for number in 0..64 {
            let Some(name) = Name::new(number) else {
                unreachable!()
            };
            self.close_reader_at(name);
        }
    }

    /// Closes the writers by number.
    fn close_writers(&mut self)
        ensures stands { (state : State) → Represents self.old state →
            Represents self.new (writers_closed state 64) }
        ensures none { (w : ℕ) → w < 64 → named self.new.writers w ≡ None }
        ensures readers { self.new.readers ≡ self.old.readers }
        ensures clients { self.new.clients ≡ self.old.clients }
    {
        for number in 0..64 {
            let Some(name) = Name::new(number) else {
                unreachable!()
            };
            self.close_writer_at(name);
        }
    }

    /// Closes the endpoints by number.
    fn close_endpoints(&mut self)
        ensures stands { (state : State) → Represents self.old state →
            Represents self.new (endpoints_closed state 64) }
        ensures none { (e : ℕ) → e < 64 → named self.new.endpoints e ≡ None }
        ensures readers { self.new.readers ≡ self.old.readers }
        ensures writers { self.new.writers ≡ self.old.writers }
        ensures clients { self.new.clients ≡ self.old.clients }
    {
        for name in 0..64 {
            self.close_endpoint(name);
        }
    }

    /// Closes the clients, then the readers, then the writers and then the endpoints, each by number.
    fn close_streams(&mut self)
        ensures stands { (state : State) → Represents self.old state →
            Represents self.new (endpoints_closed (streams_closed state) 64) }
        ensures clients { (m : ℕ) → m < 64 → named self.new.clients m ≡ None }
        ensures readers { (r : ℕ) → r < 64 → named self.new.readers r ≡ None }
        ensures writers { (w : ℕ) → w < 64 → named self.new.writers w ≡ None }
        ensures endpoints { (e : ℕ) → e < 64 → named self.new.endpoints e ≡ None }
    {
        self.close_clients();
        self.close_readers();
        self.close_writers();
        self.close_endpoints();
    }

    /// Closes the futures by number.
    fn close_futures(&mut self)
        ensures stands { (state : State) → Represents self.old state →
            Represents self.new (futures_closed state 64) }
        ensures none { (f : ℕ) → f < 64 → named self.new.futures f ≡ None }
        ensures endpoints { open_under self.new ≡ open_under self.old }
    {
        for name in 0..64 {
            self.close_future_at(name);
        }
    }

    /// Closes the interfaces by number.
    fn close_interfaces(&mut self)
        ensures stands { (state : State) → Represents self.old state →
            Represents self.new (interfaces_closed state 64) }
        ensures none { (i : ℕ) → i < 64 → named self.new.interfaces i ≡ None }
        ensures endpoints { open_under self.new ≡ open_under self.old }
        ensures futures { self.new.futures ≡ self.old.futures }
    {
        for name in 0..64 {
            self.close_handle(name);
        }
    }

    /// Closes the devices by number.
    fn close_devices(&mut self)
        ensures stands { (state : State) → Represents self.old state →
            Represents self.new (devices_closed state 64) }
        ensures none { (d : ℕ) → d < 64 → named self.new.devices d ≡ None }
        ensures interfaces { self.new.interfaces ≡ self.old.interfaces }
        ensures endpoints { open_under self.new ≡ open_under self.old }
        ensures futures { self.new.futures ≡ self.old.futures }
    {
        for name in 0..64 {
            self.close_name(name);
        }
    }

    /// Closes what is open, clients, then readers, then writers, then endpoints, then futures, then
    /// interfaces and then devices, each by number; and gives the host, at which all tickets are
    /// discarded and then reaped, by number. Then the journal is lawful, each ticket has its
    /// completion and its end, and the host keeps no open device, no claimed interface and no
    /// endpoint.
    pub fn end(self) -> Host
        ensures host { (state : State) → Represents self state → result ≡ ended state }
        ensures ended { HasEnds result.tickets }
        ensures reaped { HasCompletions result.kernel.past }
        ensures lawful { IsLawful result.kernel.past }
        ensures none_open { (d : ℕ) → value_at result.devices d ≡ None }
        ensures keeps_nothing { KeepsNothing result }
        ensures unclaimed { (d n : ℕ) → is_claimed result.kernel.devices d n ≡ false }
        ensures goes_on { Extends self.host.kernel.past result.kernel.past }
    {
        let mut session = self;
        session.close_streams();
        session.close_futures();
        session.close_interfaces();
        session.close_devices();
        let Session {
            mut host,
            devices,
            interfaces,
            endpoints,
            readers,
            writers,
            clients,
            futures,
            tree: _tree,
            watch: _watch,
        } = session;
        drop_names(futures);
        drop_names(endpoints);
        drop_names(readers);
        drop_names(writers);
        drop_names(clients);
        drop_names(interfaces);
        drop_names(devices);
        host.finish();
        host.nothing_is_kept_that_has_gone();
        // The contract of this call says that the journal is lawful.
        let _ = host.kernel().journal();
        host
    }
}
