ghost use Rattle.shard_node.specs.Worked.{Worked};

/// The worked rows of `specs/Rows.antt`: what the step table gives in each.
pub fn worked_compute()
    ensures { Worked }
{}
