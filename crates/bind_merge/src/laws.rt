//! The laws on which resolving each file once rests.

ghost use Rattle.bind_merge.specs.Laws.{MergesOnce, MetAgain, WalksOnce};
ghost use Rattle.bind_merge.specs.Showing.{ViewsShow};
ghost use Rattle.bind_merge.specs.Telling.{ViewsTell};

/// A walk over a file and its includes, at most d of them below one another, meets no fault exactly
/// where the file is without fault within the depth d: where its record is good and each include
/// names one file that is without fault within one less. So whether a file is can be told once for
/// each depth, bottom up, however many ways lead to it.
#[tactic(auto, using(crate::proofs::Walking::walks_once))]
pub fn walks_once()
    ensures { WalksOnce }
{}

/// A file that is met again, and that is without fault within the depth that is left, is without
/// fault on whatever way one came, as long as no file of that way is: it can't close a circle.
#[tactic(auto, using(crate::proofs::Walking::met_again))]
pub fn met_again()
    ensures { MetAgain }
{}

/// What a file's own record says, level by level and with its names in order, is joined with the
/// merged levels of the files that it includes, each of which is made once. Where nothing clashes
/// this is the merged binding of the file: it says exactly what the file holds along its includes,
/// filters and child-bindings. Neither the file nor one that it includes at any depth is then in
/// conflict.
pub fn merges_once()
    ensures { MergesOnce }
{}

/// What a view tells of merged levels is what they say, fact by fact: each setting of a property or
/// a space, the buses and the bus, and below them what the view of the child-binding tells.
#[tactic(auto, using(crate::proofs::Telling::views_tell))]
pub fn views_tell()
    ensures { ViewsTell }
{}

/// What the views of a file's merged binding show, at each child-binding step, is what the file
/// holds there along its includes, filters and child-bindings: the names of the properties, their
/// settings, whether one is required, the cells of a space, the buses and the bus, and whether
/// there is a child.
pub fn views_show()
    ensures { ViewsShow }
{}
