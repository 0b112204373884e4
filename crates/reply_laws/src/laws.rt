//! The functions do nothing: their contracts state laws of the definitions.
//! They hold of every tessellation, of all rules that are accepted for it, and of each of its kinds.

ghost use Rattle.tree_laws.specs.Laws.{OfEachTree};
ghost use Rattle.reply_model.specs.WalkReadings.{IsWalkReply};
ghost use Rattle.reply_model.specs.TreeReadings.{IsTreeReply};
ghost use Rattle.reply_laws.specs.Laws.{HaveOneReply, InterleavingsAgree};
ghost use Rattle.reply_laws.specs.Laws.{ReadingsAgree, RepliesAgree};
ghost use Rattle.reply_laws.specs.Laws.{AnswersTellTiles, AnswersTellRelated, PathsAreShortest};
ghost use Rattle.reply_laws.specs.Laws.{RingsListTiles};

/// What names mean, of the replies themselves.
/// Two replies to `at`, at whichever moments, have one name exactly where the walks of the two walkers are at the same
/// tile, and one name and one spin exactly where the walks are related.
pub fn names()
    ensures tiles { OfEachTree AnswersTellTiles }
    ensures related { OfEachTree AnswersTellRelated }
{}

/// The replies mean the same over the tree and over walks.
/// The place of a walk is the position that it leads to, walks are at the same tile where they lead to one name, two
/// tiles are as far from each other as a name in the tree of the kind of the first one is long, and as many tiles lie
/// at a distance as its ring has names.
/// So a reply is due by what the tree says exactly where it is due by what walks say.
pub fn readings()
    ensures words { OfEachTree ReadingsAgree }
    ensures replies { OfEachTree RepliesAgree }
{}

/// After each history, each command has exactly one reply, over walks and over the tree.
pub fn replies()
    ensures over_walks { OfEachTree (λ kinds a k. HaveOneReply (IsWalkReply kinds a k)) }
    ensures over_tree { OfEachTree (λ kinds a k. HaveOneReply (IsTreeReply kinds a k)) }
{}

/// What stands between the commands `new` and `go` does not matter to where walkers are.
/// After two histories that hold the same of these commands in the same order, the same replies are due to commands
/// that ask where a walker is.
pub fn interleavings()
    ensures over_walks { OfEachTree (λ kinds a k. InterleavingsAgree (IsWalkReply kinds a k)) }
    ensures over_tree { OfEachTree (λ kinds a k. InterleavingsAgree (IsTreeReply kinds a k)) }
{}

/// The walk in a reply to `path` leads from the tile of the first walker to that of the second, and no walk between
/// them has fewer crossings.
pub fn paths()
    ensures shortest { OfEachTree PathsAreShortest }
{}

/// The names that follow a reply to `ring` are those of the tiles at its distance, and only those.
/// The name in a reply to `at` is among them exactly where the walk of the walker lies that many crossings away.
pub fn rings()
    ensures list { OfEachTree RingsListTiles }
{}
