//! The function does nothing: its contract states laws of the definitions.

ghost use Rattle.merge_laws.specs.Laws.{OfEachMerging};
ghost use Rattle.same_replies.specs.Laws.{OfOneTree, TreeRepliesStay, WalkRepliesStay, RepliesStay};

/// A reply is due to a command after a history by some accepted rules exactly where it is due by others of the same
/// tessellation whose trees have the same names: read over the tree, and read over walks.
/// Merged rules have the names of those that they were merged from.
pub fn replies()
    ensures over_tree { OfOneTree TreeRepliesStay }
    ensures over_walks { OfOneTree WalkRepliesStay }
    ensures merged { OfEachMerging (λ kinds a classes b. RepliesStay kinds a b) }
{}
