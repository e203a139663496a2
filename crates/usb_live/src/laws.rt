//! The rule of a row as laws: each kind of step keeps it.
ghost use Rattle.usb_live.specs.Laws.{OwnerOutKeepsTheRule, FillKeepsTheRule, RefuseKeepsTheRule, PublishKeepsTheRule, OwnerLookKeepsTheRule, AbandonKeepsTheRule, OwnerTakeKeepsTheRule, HandlerOutKeepsTheRule, HandlerLookKeepsTheRule, FinishKeepsTheRule, HandlerTakeKeepsTheRule};

/// Each kind of step of the owner keeps the rule of the row, whatever the handler did before.
pub fn each_step_of_the_owner_keeps_the_rule()
    ensures out { OwnerOutKeepsTheRule }
    ensures fill { FillKeepsTheRule }
    ensures refuse { RefuseKeepsTheRule }
    ensures publish { PublishKeepsTheRule }
    ensures look { OwnerLookKeepsTheRule }
    ensures abandon { AbandonKeepsTheRule }
    ensures take { OwnerTakeKeepsTheRule }
{}

/// Each kind of step of the handler keeps the rule of the row, whatever the owner did before.
pub fn each_step_of_the_handler_keeps_the_rule()
    ensures out { HandlerOutKeepsTheRule }
    ensures look { HandlerLookKeepsTheRule }
    ensures finish { FinishKeepsTheRule }
    ensures take { HandlerTakeKeepsTheRule }
{}
