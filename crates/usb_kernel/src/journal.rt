//! The journal of a kernel, to which events are appended.

ghost use Rattle.std.specs.Prelude.{◌≡◌, ℕ, ◌+◌, ◌<◌, ◌≤◌, ◌∷◌, List, reverse, false, vec_len, vec_capacity, IsTrue};
ghost use Rattle.usb_kernel.specs.Legal.{IsLegal, IsLawful};
ghost use Rattle.usb_kernel.specs.Acts.{acts, EachActs};
ghost use Rattle.usb_kernel.specs.Deadlines.{KeepsDeadlines, moves_deadline};

use crate::event::Event;

/// Appends an event for which there is room.
fn push_event(journal: &mut Vec<Event>, event: Event)
    requires room { vec_len journal.old < vec_capacity journal.old }
    ensures items { reverse journal.new.items ≡ event ∷ reverse journal.old.items }
    ensures len { vec_len journal.new ≡ vec_len journal.old + 1 }
    ensures capacity { vec_capacity journal.old ≤ vec_capacity journal.new }
{
    journal.push_reserved(event);
}

/// The same. A lawful journal stays lawful, and where the event acts, one in which each event acts
/// stays so. The deadlines that are kept stay so unless one of them comes or goes with the event.
pub(crate) fn put(journal: &mut Vec<Event>, event: Event)
    requires room { vec_len journal.old < vec_capacity journal.old }
    ensures items { reverse journal.new.items ≡ event ∷ reverse journal.old.items }
    ensures lawful { IsLegal event → IsLawful (reverse journal.old.items)
        → IsLawful (reverse journal.new.items) }
    ensures acts { IsTrue (acts (reverse journal.old.items) event)
        → EachActs (reverse journal.old.items) → EachActs (reverse journal.new.items) }
    ensures timed { (ds : List (ℕ × ℕ)) → moves_deadline event ≡ false
        → KeepsDeadlines (reverse journal.old.items) ds
        → KeepsDeadlines (reverse journal.new.items) ds }
    ensures len { vec_len journal.new ≡ vec_len journal.old + 1 }
    ensures capacity { vec_capacity journal.old ≤ vec_capacity journal.new }
{
    push_event(journal, event);
}
