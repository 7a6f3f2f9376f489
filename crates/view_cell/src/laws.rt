//! What follows of the lists that the ends have seen.
ghost use Rattle.std.specs.Prelude.{◌≡◌, ◌≤◌, List, Some};
ghost use Rattle.std.specs.List.{Contains};
ghost use mathlib.Core.List.{IsPrefix};
ghost use Rattle.view_cell.specs.declared.look.Look.{Look};
ghost use Rattle.view_cell.specs.Looks.{IsHistory, newest_of};

/// Each look of a history with a number up to that of a beginning's newest stands in that beginning.
pub fn up_to_the_told()
    ensures { (seen told : List Look) (newest x : Look) → IsHistory seen → IsPrefix told seen → newest_of told ≡ Some newest → Contains seen x
        → x.ops ≤ newest.ops → Contains told x }
{}
