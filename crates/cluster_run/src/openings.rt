//! What consumers show before any step.
ghost use Rattle.std.specs.Prelude.{◌≡◌, ◌<◌, length, IfOk};
ghost use Rattle.std.specs.List.{AllByRecursion};
ghost use Rattle.msg_wire.specs.Valid.{IsValidConfig};
ghost use Rattle.cluster_run.specs.Beginning.{IsFirst, IsOpeningOf};

use msg_wire::Config;
use net_model::{NodeModel, View, Viewed};
use quota_table::OutOfMemory;
use spec_base::NodeId;
use std::alloc::Global;
use view_cell::Look;
use world::AnyNode;

/// The opening look of each consumer.
pub(crate) fn openings_of(alloc: Global, cfg: &Config) -> Result<Vec<Look>, OutOfMemory>
    requires { IsValidConfig cfg.now }
    ensures count { IfOk result (λ openings. length openings.items ≡ cfg.now.consumers) }
    ensures first { IfOk result (λ openings. AllByRecursion IsFirst openings.items) }
{
    let mut openings = Vec::with_capacity(alloc, usize::from(cfg.consumers))?;
    for number in 0..cfg.consumers {
        openings.push(opening_of(alloc, cfg, number)?)?;
    }
    Ok(openings)
}

/// What a consumer shows before any step.
fn opening_of(alloc: Global, cfg: &Config, number: u8) -> Result<Look, OutOfMemory>
    requires valid { IsValidConfig cfg.now }
    requires number { number < cfg.now.consumers }
    ensures { IfOk result (IsOpeningOf cfg.now number) }
{
    let node = AnyNode::new(alloc, cfg, NodeId::Consumer(number))?;
    match node.view() {
        Some(
            View {
                applied,
                confirmed,
                shown,
            },
        ) => Ok(Look {
            ops: 0,
            epoch: 0,
            applied,
            confirmed,
            shown,
        }),
        None => unreachable!(),
    }
}
