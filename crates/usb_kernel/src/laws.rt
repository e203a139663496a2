//! Laws of journals. Each is the contract of a function that does nothing.

ghost use Rattle.usb_kernel.specs.Laws.{ReapedIsFinal, CompletionIsFinal, EventExtends, SubmitExtends, RefuseExtends, StepExtends, TimerExtends, DiscardExtends, ReapExtends, ResetExtends, ExtendsItself, ExtendsInTurn, TicketStays, StatusStays, ReapedStays, CompletionStays, LaterAreUntouched};
ghost use Rattle.usb_kernel.specs.Laws.{SubmitOpens, SubmitSparesOthers, RefuseOpensNone, PacketServesOldest, PacketSparesOthers, AckServesOldest, AckSparesOthers, FailTakesOldest, FailSparesOthers, DiscardCloses, ReapClosesNone, UnplugCloses, UnplugSparesOthers, EchoIsAckAndPacket, EchoClosesAsBoth, EchoNeedsBoth, EchoClosesNone};
ghost use Rattle.usb_kernel.specs.Laws.{DiscardFinishes, FinishedIsReapable, ReapableHasLowest, LowestIsReapable, LowestIsLeast, WaitingAreTickets, ReapEndsWaiting, ReapLeavesOneLess, SubmitLeavesWaiting, RefuseLeavesWaiting, OthersAddWaiting};
ghost use Rattle.usb_kernel.specs.ClaimLaws.{ClaimedIsBusy, ClaimMakesClaimed, SecondClaimIsBusy, ClaimsKeep, ReleasesKeep, StepsKeep, ReleaseEnds, ReleaseUndoes, RefusedClaims};
ghost use Rattle.usb_kernel.specs.CallLaws.{UnpluggedIsRefused, ArmedComesFirst, ArmedIsUsedOnce, OthersStayArmed, RefusedChangesNone, AnswersUseNone, OpensUseNone, ClaimedIsRefused, CallsKeepClaims, ResetsKeepClaims, DetachAndClaimActs, DetachActs, AttachActs, StartIsExclusive, CallsStayExclusive, ResetsStayExclusive, ReleasesStayExclusive, StepsStayExclusive, ResetIsUnplug, RefusedReset, ResetUnplugs};

/// Whatever comes after its reap, a ticket's fate stays, and its completion with it.
pub fn reaped_is_final()
    ensures fate { ReapedIsFinal }
    ensures completion { CompletionIsFinal }
{}

/// A journal goes on by each event, and by each call that may leave one.
pub fn calls_extend_journals()
    ensures event { EventExtends }
    ensures submit { SubmitExtends }
    ensures refuse { RefuseExtends }
    ensures step { StepExtends }
    ensures timer { TimerExtends }
    ensures discard { DiscardExtends }
    ensures reap { ReapExtends }
    ensures reset { ResetExtends }
{}

/// A journal goes on to itself, and goes on in turn.
pub fn extensions_compose()
    ensures itself { ExtendsItself }
    ensures in_turn { ExtendsInTurn }
{}

/// What stays while a journal goes on.
pub fn extensions_keep_tickets()
    ensures ticket { TicketStays }
    ensures status { StatusStays }
    ensures fate { ReapedStays }
    ensures completion { CompletionStays }
{}

/// While a ticket is open, nothing has come to the later ones of its endpoint.
pub fn later_are_untouched()
    ensures law { LaterAreUntouched }
{}

/// A submission opens one ticket, on its own endpoint.
pub fn submissions_open_tickets()
    ensures own { SubmitOpens }
    ensures others { SubmitSparesOthers }
    ensures refused { RefuseOpensNone }
{}

/// A packet or an acknowledgement closes the oldest open ticket of its endpoint where it finishes
/// it, and a failure closes it always.
pub fn oldest_is_served()
    ensures packet { PacketServesOldest }
    ensures packet_others { PacketSparesOthers }
    ensures ack { AckServesOldest }
    ensures ack_others { AckSparesOthers }
    ensures fail { FailTakesOldest }
    ensures fail_others { FailSparesOthers }
{}

/// A discard closes its ticket, an unplug closes the tickets of its device, and a reap closes none.
pub fn tickets_are_closed()
    ensures discard { DiscardCloses }
    ensures reap { ReapClosesNone }
    ensures unplug { UnplugCloses }
    ensures unplug_others { UnplugSparesOthers }
{}

/// An echo is an acknowledgement, and then the packet that it takes.
pub fn echo_is_two_events()
    ensures fate { EchoIsAckAndPacket }
    ensures closes { EchoClosesAsBoth }
    ensures alone { EchoNeedsBoth }
    ensures alone_closes { EchoClosesNone }
{}

/// A discard finishes its ticket, and a ticket that is finished and not reaped is not overlooked.
pub fn finished_can_be_reaped()
    ensures discarded { DiscardFinishes }
    ensures reapable { FinishedIsReapable }
    ensures some { ReapableHasLowest }
    ensures lowest { LowestIsReapable }
    ensures least { LowestIsLeast }
{}

/// How many tickets wait to be reaped after an event.
pub fn waiting_tickets_are_counted()
    ensures few { WaitingAreTickets }
    ensures reap { ReapEndsWaiting }
    ensures one_less { ReapLeavesOneLess }
    ensures submit { SubmitLeavesWaiting }
    ensures refuse { RefuseLeavesWaiting }
    ensures others { OthersAddWaiting }
{}

/// An interface that is claimed is refused a second claim with errno 16, until it is released.
pub fn claimed_once()
    ensures busy { ClaimedIsBusy }
    ensures claimed { ClaimMakesClaimed }
    ensures second { SecondClaimIsBusy }
    ensures claims { ClaimsKeep }
    ensures releases { ReleasesKeep }
    ensures steps { StepsKeep }
    ensures ends { ReleaseEnds }
    ensures undoes { ReleaseUndoes }
    ensures refused { RefusedClaims }
{}

/// A call on a device that is not plugged is refused with 19. Else the first refusal that is armed
/// for it comes before its rules, and is used up by it alone. A call that is refused changes no
/// device.
pub fn refusals_come_first()
    ensures unplugged { UnpluggedIsRefused }
    ensures first { ArmedComesFirst }
    ensures once { ArmedIsUsedOnce }
    ensures others { OthersStayArmed }
    ensures refused { RefusedChangesNone }
{}

/// A call that only asks and is not refused has used no refusal up, and neither has an open.
pub fn answers_use_no_refusal()
    ensures answers { AnswersUseNone }
    ensures opens { OpensUseNone }
{}

/// While an interface is claimed, it is claimed by no other call, no driver is attached to it, and
/// its device keeps the configuration. Only a release ends the claim.
pub fn claims_outlast_calls()
    ensures refused { ClaimedIsRefused }
    ensures calls { CallsKeepClaims }
    ensures resets { ResetsKeepClaims }
{}

/// What the calls on drivers make of an interface where they are not refused.
pub fn drivers_come_and_go()
    ensures detach_and_claim { DetachAndClaimActs }
    ensures detach { DetachActs }
    ensures attach { AttachActs }
{}

/// No interface is ever claimed and has a driver.
pub fn claims_and_drivers_exclude_each_other()
    ensures start { StartIsExclusive }
    ensures calls { CallsStayExclusive }
    ensures resets { ResetsStayExclusive }
    ensures releases { ReleasesStayExclusive }
    ensures steps { StepsStayExclusive }
{}

/// A reset that is not refused is the step of an unplug, and then the device is not plugged.
pub fn resets_are_unplugs()
    ensures acts { ResetIsUnplug }
    ensures refused { RefusedReset }
    ensures unplugged { ResetUnplugs }
{}
