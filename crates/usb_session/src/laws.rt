//! Laws of answers. Each is the contract of a function that does nothing.

ghost use Rattle.usb_session.specs.FinalFates.{FatesAreFinal, FatesOfScripts};
ghost use Rattle.usb_session.specs.Places.{PollsAnswerForTheirPlace, PollsOfScriptsAnswer, CompletionsAreTaken};
ghost use Rattle.usb_session.specs.Behind.{ScriptsGoOn};
ghost use Rattle.usb_session.specs.Framed.{FramedScriptsFollow};
ghost use Rattle.usb_session.specs.Handed.{ScriptsHandOver};
ghost use Rattle.usb_session.specs.WrittenScripts.{ScriptsAreWritten};
ghost use Rattle.usb_session.specs.ClientsServed.{ScriptsServeClients};
ghost use Rattle.usb_session.specs.Served.{EndpointsAreServedInOrder, ScriptsAreCounted};
ghost use Rattle.usb_session.specs.Printed.{ScriptsPrintCompletions};
ghost use Rattle.usb_session.specs.ControlsServed.{ScriptsServeControls};

/// Where each ticket of a host has its end and its completion, as at the end of a session, each fate line names the ticket's final
/// status and its end. At the end of a script there are as many as its summary counts tickets.
pub fn fates_are_final()
    ensures lines { FatesAreFinal }
    ensures scripts { FatesOfScripts }
{}

/// While the session is not crowded, a poll answers for the endpoint's oldest pending ticket: with the completion that the journal
/// has of it, and `pending` exactly where the journal has none. So does each poll of a script. A line with a completion is printed
/// only where an endpoint's ticket is taken: control transfers print none.
pub fn polls_answer_for_their_place()
    ensures poll { PollsAnswerForTheirPlace }
    ensures scripts { PollsOfScriptsAnswer }
    ensures taken { CompletionsAreTaken }
{}

/// Each endpoint that a script opens is served in the order of its submissions: the tickets that were taken are the first, each was
/// printed with the completion that the last journal has of it, and the others were given up when it was closed. Each ticket is
/// that of one endpoint, at one place, or of one control transfer.
pub fn endpoints_are_served_in_order()
    ensures handles { EndpointsAreServedInOrder }
    ensures count { ScriptsAreCounted }
{}

/// Each line of a script that prints a completion took one ticket of an endpoint, the next in its
/// order, and printed the completion that the last journal has of this ticket, whatever became of
/// the endpoint before the line and afterwards.
pub fn lines_print_what_they_took()
    ensures printed { ScriptsPrintCompletions }
{}

/// Each control transfer that a script hands in is answered once by a line, which tells what the last
/// journal has as the completion of its ticket, or is given up once when its future is closed: then
/// it is dropped exactly where it was reaped, and else reclaimed.
pub fn controls_are_served()
    ensures controls { ScriptsServeControls }
{}

/// Over each line of a script and over its end the journal goes on, and a ticket that has its end keeps it. So the completion that
/// a line prints is the last journal's.
pub fn scripts_go_on()
    ensures { ScriptsGoOn }
{}

/// What a framed reader consumed is, before the first line of a script and behind each, a prefix of
/// its endpoint's stream, and a read until a short packet gives no byte only where an end is next.
pub fn framed_readers_follow()
    ensures framed { FramedScriptsFollow }
{}

/// The bytes that a reader handed over, and then those that are unread, are, before the first line
/// of a script and behind each, the bytes of the completions of the tickets that it took, in order.
pub fn readers_hand_over()
    ensures handed { ScriptsHandOver }
{}

/// The tickets of the endpoint of a writer that alone used it carry, before the first line of a
/// script and behind each, the transfers of the writer's accepted calls, in order; and each failed
/// transfer that a call took is that call's error.
pub fn writers_tell()
    ensures written { ScriptsAreWritten }
{}

/// Before the first line of a script and behind each, the tickets of a client's writer carry the
/// frames of its requests, in order, and its responses are the first messages that came to its
/// reader, each behind the tag of its request. So where the device answers each request with f of
/// it, under the request's tag, the responses are f of the requests, in order.
pub fn clients_are_served()
    ensures clients { ScriptsServeClients }
{}
