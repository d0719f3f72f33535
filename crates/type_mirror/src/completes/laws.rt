//! The laws on a fetch whose peer has what is asked for.
ghost use Rattle.type_mirror.specs.completes.Laws.{EndsWithObjects, SomeEndThem, AnswersObjects, AnswersOver, SessionEndsThem, AnswersSession, ComesToObjects};

/// A fetch from a peer that has the objects of all that is met from the identifiers, at most 4,096, and replies as a service does. No round ends
/// in a fault, and with as many replies as objects all of them are there, whether or not each reply had room for all that was asked for. So what
/// `fetch` answers are the objects, or the link failed or memory was wanting.
///
/// A `session` over a pass that knows all when it begins is such a peer. Where it reads what a fetch sent, and the fetch reads what it sent over a
/// link that does not fail, the fetch comes to exactly the objects, or to OutOfMemory, and to nothing else.
pub fn fetches_complete()
    ensures ends { EndsWithObjects }
    ensures some { SomeEndThem }
    ensures answers { AnswersObjects }
    ensures over { AnswersOver }
    ensures session { SessionEndsThem }
    ensures faces { AnswersSession }
    ensures comes { ComesToObjects }
{}
