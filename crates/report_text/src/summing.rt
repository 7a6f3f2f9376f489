ghost use Rattle.std.specs.Prelude.{◌≡◌, IfOk};
ghost use Rattle.report_text.specs.Summary.{summary_of};

use crate::gathered::gather;
use msg_wire::Config;
use net_model::History;
use quota_table::{Bytes, OutOfMemory};
use std::alloc::Global;

/// The summary of a run, the oldest entry first: how much all clients were given and acknowledged, how many records of clients each
/// consumer confirmed and what it shows, at how many positions two records differ, and whether the run is quiet, as the caller says.
///
/// The cluster, nodes, events and marks may be any. It is one pass over the history, as that of the report.
pub fn summary(
    alloc: Global,
    cfg: &Config,
    history: &History,
    quiet: bool,
) -> Result<Bytes, OutOfMemory>
    ensures { IfOk result (λ text. text ≡ summary_of cfg.now history.now quiet) }
{
    let gathered = gather(alloc, cfg, history)?;
    let mut text = Bytes::new(alloc);
    gathered.write_summary(alloc, cfg, quiet, &mut text)?;
    Ok(text)
}
