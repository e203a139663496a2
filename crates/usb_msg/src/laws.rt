//! Laws of clients. Each is the contract of a function that does nothing.

ghost use Rattle.usb_msg.specs.Laws.{FramesAreMessages, FreshKeeps, LaterKeeps, RequestsAreMessages, ResponsesAreFirst, ResponsesAreMessages, ResponsesAreAsked, AnswersComeBack};
ghost use Rattle.usb_msg.specs.Lives.{ClientsLive};

/// What a client's tickets say of its requests and responses: they say it of a new client, whatever
/// comes, and over any calls, each of which keeps it. By it the frames of the requests are the messages of the
/// writer, and the k-th response is the k-th message of the stream of the reader, under the tag k.
pub fn responses_are_messages()
    ensures frames { FramesAreMessages }
    ensures fresh { FreshKeeps }
    ensures later { LaterKeeps }
    ensures calls { ClientsLive }
    ensures requests { RequestsAreMessages }
    ensures first { ResponsesAreFirst }
    ensures responses { ResponsesAreMessages }
    ensures asked { ResponsesAreAsked }
    ensures back { AnswersComeBack }
{}
