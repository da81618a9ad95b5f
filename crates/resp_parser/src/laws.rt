//! Laws of replies, as functions that do nothing.
ghost use Rattle.resp_parser.specs.Laws.{HasOneAnswer, HasOneHead, KeptHasKinds, ListsAreShort, OrderIsFree};
ghost use Rattle.resp_parser.specs.Parsed.{IsParsed, IsParsedHead};

/// A reply has one answer.
pub fn reply_has_one_answer()
    ensures { HasOneAnswer }
{}

/// A reply's head has one answer.
pub fn head_has_one_answer()
    ensures { HasOneHead }
{}

/// What is kept of a value without a fault has the kinds of its shape at every structure, list and map, and
/// only members that the model knows.
pub fn kept_has_kinds()
    ensures { KeptHasKinds }
{}

/// The members of a structure may stand in any order.
pub fn members_are_free()
    ensures { OrderIsFree }
{}

/// Whatever a reply within the limits of an exchange holds, no list in its document has 2^26 items.
pub fn lists_are_short()
    ensures whole { ListsAreShort IsParsed }
    ensures head { ListsAreShort IsParsedHead }
{}
