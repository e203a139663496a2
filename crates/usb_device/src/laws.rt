//! Laws of lines, of ends and of claims at a host. Each is the contract of a function that does
//! nothing.

ghost use Rattle.usb_device.specs.HeldLaws.{DevicesStayHeld};
ghost use Rattle.usb_device.specs.ClosedLaws.{ClosedKeepsNothing};
ghost use Rattle.usb_device.specs.EndLaws.{EndsStay, DroppedWhereReaped, FutureDroppedWhereReaped};
ghost use Rattle.usb_device.specs.OwnerLaws.{ClaimsStayOwned};
ghost use Rattle.usb_device.specs.LineLaws.{TurnGoesOn, WaitGoesOn, BlockingGoesOn, AwaitGoesOn, RestGoesOn, RestLeavesNone, LineUsesPlaces};

/// What takes steps of a line takes them from its front. At the line's end all are taken, and each
/// has used a place of the kernel.
pub fn lines_go_on()
    ensures turn { TurnGoesOn }
    ensures wait { WaitGoesOn }
    ensures blocking { BlockingGoesOn }
    ensures await_ticket { AwaitGoesOn }
    ensures rest { RestGoesOn }
    ensures none_left { RestLeavesNone }
    ensures places { LineUsesPlaces }
{}

/// A ticket has at most one end: one that it has stays over each call on the host.
pub fn tickets_end_once()
    ensures stay { EndsStay }
{}

/// A transfer that was not taken is dropped exactly where it was reaped when its endpoint, or its
/// future, is closed. Else it has no end yet.
pub fn what_is_reaped_is_dropped()
    ensures dropped { DroppedWhereReaped }
    ensures future_dropped { FutureDroppedWhereReaped }
{}

/// An interface is claimed at the kernel exactly while there is an entry of it that has an owner: an
/// open handle, or an endpoint that lives. Nothing is kept that has gone: each entry that is there
/// has an owner, so it goes with the last one, and after that its key never has an owner again. An
/// interface with an open handle stays, with at least its handles, over every call but the close of
/// a handle of its own.
pub fn claims_are_owned()
    ensures { ClaimsStayOwned }
{}

/// Of open devices nothing is kept that has gone: each that is there is held, by an open handle of
/// it or of an interface that was claimed on it. One with an open handle stays, with at least its
/// handles, over every call but the close of a handle of its own.
pub fn devices_are_held()
    ensures { DevicesStayHeld }
{}

/// Where no handle is open and each ticket has its end, nothing is kept: no open device, no claimed
/// interface and no endpoint.
pub fn nothing_is_kept_once_all_is_closed()
    ensures { ClosedKeepsNothing }
{}
