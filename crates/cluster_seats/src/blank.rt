ghost use Rattle.std.specs.Prelude.{◌≡◌, ◌<◌, ◌≤◌, length, IfOk};
ghost use Rattle.std.specs.List.{AllByRecursion};
ghost use Rattle.msg_wire.specs.Valid.{IsValidConfig, IsNodeOf};
ghost use Rattle.cluster_seats.specs.Blanks.{AreBlanks, IsBlankOf, new_faults};

use link_faults::LinkFaults;
use msg_wire::Config;
use net_model::NodeModel;
use quota_table::OutOfMemory;
use spec_base::NodeId;
use std::alloc::Global;

/// A node at its start, with all that it needs but its vault and its links.
#[derive(Drop)]
pub struct Blank<N> {
    /// The cluster.
    pub(crate) cfg: Config,
    /// Which node of it this is.
    pub(crate) name: NodeId,
    pub(crate) node: N,
    /// The faults of the links to all nodes of the run, in their order.
    pub(crate) faults: Vec<LinkFaults>,
}

/// These nodes of a cluster at their start, in their order. The faults of the link from one of them to another are as new, by the seed and the
/// places of the two. At most 32 nodes.
pub fn blanks<N: NodeModel + Drop>(
    alloc: Global,
    cfg: &Config,
    nodes: &[NodeId],
    seed: u32,
) -> Result<Vec<Blank<N>>, OutOfMemory>
    requires valid { IsValidConfig cfg.now }
    requires nodes { AllByRecursion (IsNodeOf cfg.now) nodes.now }
    requires few { length nodes.now ≤ 32 }
    ensures { IfOk result (λ made. AreBlanks ⟦<N as NodeModel>⟧ cfg.now seed nodes.now made.items) }
{
    let count = nodes.len();
    let mut made = Vec::with_capacity(alloc, count)?;
    for place in 0..count {
        made.push(blank_at(alloc, cfg, nodes[place], seed, place, count)?)?;
    }
    Ok(made)
}

/// The node at a place, of so many.
fn blank_at<N: NodeModel + Drop>(
    alloc: Global,
    cfg: &Config,
    name: NodeId,
    seed: u32,
    place: usize,
    count: usize,
) -> Result<Blank<N>, OutOfMemory>
    requires valid { IsValidConfig cfg.now }
    requires here { IsNodeOf cfg.now name }
    requires place { place < 32 }
    requires few { count ≤ 32 }
    ensures { IfOk result (IsBlankOf ⟦<N as NodeModel>⟧ cfg.now name (new_faults seed place count)) }
{
    let node = N::new(alloc, cfg, name)?;
    let faults = faults_from(alloc, seed, place, count)?;
    Ok(Blank {
        cfg: copy_of(cfg)?,
        name,
        node,
        faults,
    })
}

/// The faults of the links from the node at a place to so many, as new.
fn faults_from(
    alloc: Global,
    seed: u32,
    place: usize,
    count: usize,
) -> Result<Vec<LinkFaults>, OutOfMemory>
    requires place { place < 32 }
    requires few { count ≤ 32 }
    ensures { IfOk result (λ faults. faults.items ≡ new_faults seed place count) }
{
    let mut faults = Vec::with_capacity(alloc, count)?;
    for to in 0..count {
        faults.push(LinkFaults::new(seed, place, to))?;
    }
    Ok(faults)
}

fn copy_of(cfg: &Config) -> Result<Config, OutOfMemory>
    ensures { IfOk result (λ copy. copy ≡ cfg.now) }
{
    Ok(cfg.clone()?)
}
