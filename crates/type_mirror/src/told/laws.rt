//! The laws on what a push tells.
ghost use Rattle.type_mirror.specs.told.Laws.{TellsInOrder, TellsReplies, TellsLast, GivesAll, MakesEven};

/// What a push tells of its peer: one entry an object, in order, which is what the replies say of it. Where the replies are those of one session,
/// what is told holds of its last state. Where no object clashes and none has no room, the peer knows every object; and two such pushes, one in
/// each direction, leave both sides with the union of what was pushed.
pub fn pushes_tell()
    ensures order { TellsInOrder }
    ensures replies { TellsReplies }
    ensures session { TellsLast }
    ensures good { GivesAll }
    ensures both { MakesEven }
{}
