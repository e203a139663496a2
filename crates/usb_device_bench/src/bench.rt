//! The bench.

ghost use Rattle.std.specs.Prelude.{◌≡◌, ◌++◌, ◌∷◌, [], IfOk, None, Some};
ghost use Rattle.usb_kernel_devices.specs.declared.step.KernelStep.{KernelStep};
ghost use Rattle.usb_kernel_devices.specs.Devices.{fresh_device};
ghost use Rattle.usb_kernel_devices.specs.Errnos.{IsErrno};
ghost use Rattle.usb_kernel.specs.Steps.{HasErrno};
ghost use Rattle.usb_device_host.specs.Speeds.{speed_of_code};
ghost use Rattle.usb_device_bench.specs.Benches.{bench_of, with_step, with_reaped_step, code_of_speed, host_on};

use std::alloc::Global;
use std::marker::Model;
use usb_desc::{NoMemory, errno};
use usb_device_host::Host;
use usb_enum_sysfs::Speed;
use usb_kernel::Kernel;
use usb_kernel_devices::{Bytes, Descriptors, KernelCall, KernelStep, SimDevice};

/// A device that is simulated, and the steps that it is to make. `host` gives a host on which it is
/// plugged, and at which a driver finds it.
///
/// The methods take the bench and give it back with what they add, so that they stand in a row. Each
/// `?` is for want of memory, where the bench is dropped.
///
/// ```
/// let bench = SimBench::new(rt.alloc(), &DEVICE)?
///     .accept(0x02)?
///     .packet(0x81, &[1, 2, 3])?;
/// let mut host = bench.host()?;
/// let mut echo = Echo::open(&mut host, 1, 6)?;
/// let answer = echo.exchange(&mut host, &[1, 2, 3]);
/// echo.close(&mut host);
/// ```
///
/// The steps come one at a time, while the driver waits: a wait takes the next step, looks whether
/// its transfer is there, and goes on. A packet that comes while no transfer of its endpoint is
/// pending is lost, as on a wire. So a wait has to end before the packet of the next one comes. That
/// is what a reap is for, at which a finished transfer is handed to its endpoint: `packet`, `accept`,
/// `echo`, `stall`, `fail`, `until` and `unplug` each put one behind their step, or two. A driver that submits
/// many transfers before it waits loses nothing by it: where no transfer is finished a reap does
/// nothing.
///
/// Once all steps are made, the transfers that are finished are reaped, and then time is up for each
/// wait.
#[derive(Drop)]
pub struct SimBench {
    device: SimDevice,
    steps: Vec<KernelStep>,
    places: usize,
}

impl Model for SimBench {
    ghost use Rattle.std.specs.List.{All};
    ghost use Rattle.usb_kernel.specs.Steps.{HasErrno};
    ghost use Rattle.usb_device_bench.specs.Benches.{BenchState};

    ghost Value = { BenchState };

    ghost view = { λ b. record { device = b.device; steps = b.steps.items; places = b.places } };

    ghost invariant = { λ b. All HasErrno b.steps.items };
}

/// A kernel with this device, whose number is 0.
fn kernel_with(alloc: Global, device: SimDevice) -> Result<Kernel, NoMemory>
    ensures kernel { IfOk result (λ k. k ≡ record {
      past = [];
      devices = fresh_device (0, device) ∷ [];
      clock = 0;
      armed = [];
      spare = 0;
    }) }
{
    match vec![in alloc; (0, device)] {
        Ok(devices) => Kernel::new(alloc, devices),
        Err(_) => Err(NoMemory),
    }
}

impl SimBench {
    /// A device with these descriptors: the device descriptor, and behind it its configurations, each
    /// with all that belongs to it (USB 2.0, section 9.6). It is at address 6 of bus 1, of high speed,
    /// in the configuration of value 1, and no kernel driver is bound to its interfaces.
    pub fn new(alloc: Global, descriptors: &[u8]) -> Result<SimBench, NoMemory>
        ensures bench { IfOk result (λ b. b ≡ bench_of descriptors.now) }
    {
        let device = SimDevice {
            bus: 1,
            address: 6,
            speed: 3,
            config: 1,
            bytes: Descriptors::from_slice(alloc, descriptors)?,
            drivers: Bytes::from_vec(Vec::new(alloc)),
        };
        Ok(SimBench {
            device,
            steps: Vec::new(alloc),
            places: 0,
        })
    }

    /// Puts the device at an address of a bus.
    pub fn at(mut self, bus: u8, address: u8) -> SimBench
        ensures device { result ≡ record self {
          device = record self.device { bus = bus; address = address };
        } }
    {
        self.device.bus = bus;
        self.device.address = address;
        self
    }

    /// Connects the device at a speed.
    #[tactic(auto, unfolding(usb_device_host::specs::Speeds::speed_of_code))]
    pub fn speed(mut self, speed: Speed) -> SimBench
        ensures device { result ≡ record self {
          device = record self.device { speed = code_of_speed speed };
        } }
        // the code is the one that `Device::speed` tells as this speed
        ensures told { speed_of_code result.device.speed ≡ Some speed }
    {
        self.device.speed = match speed {
            Speed::Low => 1,
            Speed::Full => 2,
            Speed::High => 3,
            Speed::Super => 5,
            Speed::SuperPlus => 6,
        };
        self
    }

    /// Puts the device into the configuration of a value. With 0 it is not configured.
    pub fn configuration(mut self, value: u8) -> SimBench
        ensures device { result ≡ record self { device = record self.device { config = value } } }
    {
        self.device.config = value;
        self
    }

    /// Binds a kernel driver to an interface, before the driver begins.
    pub fn driver(self, interface: u8) -> Result<SimBench, NoMemory>
        ensures device { IfOk result (λ b. b ≡ record self {
          device = record self.device { drivers = self.device.drivers ++ interface ∷ [] };
        }) }
    {
        let SimBench {
            mut device,
            steps,
            places,
        } = self;
        let mut drivers = device.drivers.into_vec();
        if drivers.push(interface).is_err() {
            return Err(NoMemory);
        }
        device.drivers = Bytes::from_vec(drivers);
        Ok(SimBench {
            device,
            steps,
            places,
        })
    }

    /// Makes room for so many steps or resets beside the steps of the bench: `Device::reset` and
    /// `Host::step` take one place each.
    pub fn places(mut self, count: usize) -> SimBench
        ensures places { result ≡ record self { places = count } }
    {
        self.places = count;
        self
    }

    /// A step of the kernel comes next, with nothing behind it. The device has the number 0. The
    /// errno of a step that fails or refuses is from 1 to 4095.
    pub fn step(mut self, step: KernelStep) -> Result<SimBench, NoMemory>
        requires errno { HasErrno step }
        ensures steps { IfOk result (λ b. b ≡ with_step self step) }
    {
        if self.steps.push(step).is_err() {
            return Err(NoMemory);
        }
        Ok(self)
    }

    /// The finished transfer that was submitted first is reaped, so that a wait for it ends. Where
    /// none is finished this does nothing.
    pub fn reap(self) -> Result<SimBench, NoMemory>
        ensures steps { IfOk result (λ b. b ≡ with_step self (KernelStep.Reap None)) }
    {
        self.step(KernelStep::Reap { ticket: None })
    }

    /// The clock is set to a time in nanoseconds, where that is later. It begins at 0. Transfers with a
    /// deadline are cancelled by `until` or `KernelStep::Timer` alone.
    pub fn clock(self, to: u64) -> Result<SimBench, NoMemory>
        ensures steps { IfOk result (λ b. b ≡ with_step self (KernelStep.Clock to)) }
    {
        self.step(KernelStep::Clock { to })
    }

    /// Time goes by until then: the clock goes to a time in nanoseconds, where that is later, and the
    /// timer has its turn, which cancels each transfer of which the deadline is up. A reap comes behind
    /// it, for the one that was submitted first.
    pub fn until(self, time: u64) -> Result<SimBench, NoMemory>
        ensures steps { IfOk result (λ b.
            b ≡ with_reaped_step (with_step self (KernelStep.Clock time)) KernelStep.Timer) }
    {
        self.clock(time)?.step_and_reap(KernelStep::Timer)
    }

    /// A step comes next, and behind it one that reaps.
    fn step_and_reap(self, step: KernelStep) -> Result<SimBench, NoMemory>
        requires errno { HasErrno step }
        ensures steps { IfOk result (λ b. b ≡ with_reaped_step self step) }
    {
        self.step(step)?.reap()
    }

    /// A packet comes to an IN endpoint, or with the endpoint 0x80 the bytes that answer a control
    /// transfer. They go to the endpoint's pending transfer that was submitted first, and are lost
    /// where none is pending. A transfer that is full then, or a packet of less than the maximum
    /// packet size, finishes it. A reap comes behind it, so that the wait for the transfer ends
    /// before the next packet comes.
    pub fn packet(self, endpoint: u8, bytes: &[u8]) -> Result<SimBench, NoMemory>
        ensures steps { IfOk result (λ b.
            b ≡ with_reaped_step self (KernelStep.Packet 0 endpoint bytes.now)) }
    {
        let bytes = Bytes::from_slice(*self.steps.allocator(), bytes)?;
        self.step_and_reap(KernelStep::Packet {
            device: 0,
            endpoint,
            bytes,
        })
    }

    /// The device takes a packet of an OUT endpoint, or with the endpoint 0x00 all that a control
    /// transfer sends. Another transfer of more bytes than its maximum packet size takes several. A
    /// reap comes behind it, so that the wait for the transfer ends before the next packet comes.
    pub fn accept(self, endpoint: u8) -> Result<SimBench, NoMemory>
        ensures steps { IfOk result (λ b.
            b ≡ with_reaped_step self (KernelStep.Ack 0 endpoint)) }
    {
        self.step_and_reap(KernelStep::Ack {
            device: 0,
            endpoint,
        })
    }

    /// The device takes a packet of an OUT endpoint, and sends its bytes back by an IN endpoint.
    /// Nothing comes of it unless both have a pending transfer. Two reaps come behind it, one for
    /// each.
    pub fn echo(self, output: u8, input: u8) -> Result<SimBench, NoMemory>
        ensures steps { IfOk result (λ b. b ≡ with_step
            (with_reaped_step self (KernelStep.Echo 0 output input)) (KernelStep.Reap None)) }
    {
        self.step_and_reap(KernelStep::Echo {
            device: 0,
            output,
            input,
        })?
        .reap()
    }

    /// The endpoint's pending transfer that was submitted first fails with an errno of Linux. A reap
    /// comes behind it, so that the wait for the transfer ends before the next packet comes.
    pub fn fail(self, endpoint: u8, errno: u16) -> Result<SimBench, NoMemory>
        requires errno { IsErrno errno }
        ensures steps { IfOk result (λ b.
            b ≡ with_reaped_step self (KernelStep.Fail 0 endpoint errno)) }
    {
        self.step_and_reap(KernelStep::Fail {
            device: 0,
            endpoint,
            errno,
        })
    }

    /// The endpoint stalls: that transfer fails with 32 (EPIPE), which the driver sees as
    /// `TransferError::Stall`. A reap comes behind it. With the endpoint 0x00 the device refuses a
    /// control transfer that sends bytes, and with 0x80 one that asks for them.
    pub fn stall(self, endpoint: u8) -> Result<SimBench, NoMemory>
        ensures steps { IfOk result (λ b.
            b ≡ with_reaped_step self (KernelStep.Fail 0 endpoint 32)) }
    {
        self.fail(endpoint, errno::PIPE)
    }

    /// The device is unplugged, which finishes all of its transfers. A reap comes behind it, for the
    /// one that was submitted first.
    pub fn unplug(self) -> Result<SimBench, NoMemory>
        ensures steps { IfOk result (λ b. b ≡ with_reaped_step self (KernelStep.Unplug 0)) }
    {
        self.step_and_reap(KernelStep::Unplug { device: 0 })
    }

    /// The next call of a kind is refused with an errno of Linux, if it comes behind this step. A call
    /// that the driver makes before it waits comes before all steps: `Host::step` arms such a refusal.
    pub fn refuse(self, call: KernelCall, errno: u16) -> Result<SimBench, NoMemory>
        requires errno { IsErrno errno }
        ensures steps { IfOk result (λ b. b ≡ with_step self (KernelStep.Refuse 0 call errno)) }
    {
        self.step(KernelStep::Refuse {
            device: 0,
            call,
            errno,
        })
    }

    /// A host on which the device is plugged, and which has the steps lent. Nothing is open on it.
    pub fn host(self) -> Result<Host, NoMemory>
        ensures host { IfOk result (λ h. h ≡ host_on self) }
    {
        let SimBench {
            device,
            steps,
            places,
        } = self;
        let alloc = *steps.allocator();
        let Some(room) = steps.len().checked_add(places) else {
            return Err(NoMemory);
        };
        let mut kernel = kernel_with(alloc, device)?;
        kernel.reserve(room)?;
        let mut host = Host::new(alloc, kernel);
        host.lend_steps(steps);
        Ok(host)
    }
}
