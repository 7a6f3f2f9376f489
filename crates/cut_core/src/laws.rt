//! Laws of the agreed fold, over its definitions alone.
ghost use Rattle.fix_ante.specs.Windows.{Window};
ghost use Rattle.cut_core.specs.MapsAgree.{MapsAgree, CoveredStays, FoldsByEntry};
ghost use Rattle.cut_core.specs.Consistency.{FoldsAreConsistent, FoldsAreContinued};

/// After more entries the map has the owner that it had at each position below the first of every removal between.
pub fn maps_agree()
    ensures { MapsAgree }
{}

/// A covered position stays covered, by its owner.
pub fn covered_stays()
    ensures { CoveredStays }
{}

/// The fold of a list of entries is what applying them one after another gives.
pub fn folds_by_entry()
    ensures { (first : Window) → FoldsByEntry first }
{}

/// Whatever the entries, windows fit and go on with each shard's next local, each local has one position in the map, no
/// row is gone, a gone shard has ended, and a removal's first position is the least that it moves.
pub fn folds_are_consistent()
    ensures { FoldsAreConsistent }
{}

/// More entries take no covered local and no end of a gone shard away, keep the owners of the covered positions, and
/// put no local that was uncovered below them.
pub fn folds_are_continued()
    ensures { FoldsAreContinued }
{}
