//! Laws of endpoints. Each is the contract of a function that does nothing.

ghost use Rattle.usb_device_endpoint.specs.Laws.{TakenInOrder, SubmissionLeads, PollLeads, CallsCompose, EndEnds, EndedStays, EnteredMoves, LaterMoves, EndMoves, OthersStand, AllStandAfterCall, AllStandLater, AllStandAfterOpening, AllStandAfterClose};

/// The completions of an endpoint come in the order of submission, whatever the kernel's order is.
pub fn completions_come_in_order()
    ensures law { TakenInOrder }
    ensures submission { SubmissionLeads }
    ensures poll { PollLeads }
    ensures calls { CallsCompose }
{}

/// Each ticket has one end at most.
pub fn tickets_end_once()
    ensures ends { EndEnds }
    ensures stays { EndedStays }
    ensures entered { EnteredMoves }
    ensures later { LaterMoves }
    ensures end { EndMoves }
{}

/// A call on one endpoint leaves the others standing.
pub fn calls_keep_other_endpoints()
    ensures other { OthersStand }
    ensures call { AllStandAfterCall }
    ensures later { AllStandLater }
    ensures opened { AllStandAfterOpening }
    ensures closed { AllStandAfterClose }
{}
