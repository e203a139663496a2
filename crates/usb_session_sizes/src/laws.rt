//! The laws of the journals of scripts. Each is the contract of a function that does nothing.

ghost use Rattle.usb_session_sizes.specs.Scripts.{JournalsAreBounded, BoundedJournalsAreSized, BoundedJournalsAreDirected};

/// Behind each line of a script and at its end every body in the journal has or wants at most 67,582
/// bytes, every packet has at most 65,536, and every maximum is at most 65,536. Bytes are wanted at
/// IN endpoints, and sent at OUT endpoints.
#[tactic(auto, using(crate::proofs::Law::journals_are_bounded))]
pub fn journals_are_bounded()
    ensures law { JournalsAreBounded }
{}

/// A trace can tell each event of a journal that is so, and whose errnos are from 1 to 4095, as
/// those of every kernel are.
#[tactic(auto, using(crate::proofs::Sized::bounded_journals_are_sized))]
pub fn bounded_journals_are_sized()
    ensures law { BoundedJournalsAreSized }
{}

/// Where a journal is bounded, each body goes with the direction of its endpoint, as the check of
/// traces asks.
#[tactic(auto, using(crate::proofs::Directed::bounded_journals_are_directed))]
pub fn bounded_journals_are_directed()
    ensures law { BoundedJournalsAreDirected }
{}
