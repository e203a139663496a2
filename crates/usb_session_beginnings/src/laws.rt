//! The law of the beginnings of scripts, as the contract of a function that does nothing.

ghost use Rattle.usb_session_beginnings.specs.Beginnings.{BeginningsAreAnsweredAlike};

/// The output of a script is its answers, and then its fate lines. Items that declare nothing change
/// no answer before them. The first lines of a script are a script, and a script that begins with the
/// lines of another one is answered as that, and then goes on.
#[tactic(auto, using(crate::proofs::Law::beginnings_are_answered_alike))]
pub fn beginnings_are_answered_alike()
    ensures law { BeginningsAreAnsweredAlike }
{}
