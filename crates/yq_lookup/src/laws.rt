//! Laws on the pieces of a text where nodes, entries, items and comments are, for the crates above.
ghost use Rattle.yq_places.{specs.CommentLaws.CommentsAreThere, specs.Existence.{ContentsExist, EntriesExist}};
ghost use Rattle.yq_places.specs.PieceLaws.{ContentsBegin, ContentsSpell, EntriesSpell, LinesAreIn, PiecesHold};

/// The lines of a document with the text before and after them are the text; and each piece of it
/// is in it, from one whole character to another.
pub fn pieces_hold()
    ensures lines { LinesAreIn }
    ensures pieces { PiecesHold }
{}

/// The content at a path spells the node there but for its anchor, and begins in the entry or item.
pub fn contents_spell()
    ensures spelled { ContentsSpell }
    ensures begins { ContentsBegin }
{}

/// The entry or item at a path is that of the node there.
pub fn entries_spell()
    ensures { EntriesSpell }
{}

/// There is a content exactly where more than an anchor is written for a node, which is a null
/// otherwise; and an entry or item exactly where the tree has one.
pub fn pieces_exist()
    ensures contents { ContentsExist }
    ensures entries { EntriesExist }
{}

/// The comments of the tree at a path are those in the pieces there, each exactly where there is one.
pub fn comments_are_there()
    ensures { CommentsAreThere }
{}
