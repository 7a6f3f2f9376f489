//! What every run of a cluster is.

ghost use Rattle.msg_wire.specs.Valid.{IsValidConfig};
ghost use Rattle.net_model.specs.Pasts.{past_of};
ghost use Rattle.runs.specs.Laws.{IsRun, IsSafe, CutsAreTrue, IsEager, KnownIsChosen, SpeculationAgrees};

use msg_wire::Config;
use net_model::History;

/// Every run of a valid cluster is safe, its accepted cuts are true, and it is eager: what is handed in order is applied, and what is durable and
/// leased is promised. What any node knows is chosen, and two speculations agree but for noticed removals.
pub fn laws(cfg: &Config, history: &History)
    requires valid { IsValidConfig cfg.now }
    requires run { IsRun cfg.now history.now }
    ensures safe { IsSafe cfg.now (past_of history.now) }
    ensures true_cuts { CutsAreTrue cfg.now (past_of history.now) }
    ensures eager { IsEager cfg.now (past_of history.now) }
    ensures known { KnownIsChosen cfg.now (past_of history.now) }
    ensures speculation { SpeculationAgrees (past_of history.now) }
{}
