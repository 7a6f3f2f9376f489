ghost use Rattle.std.specs.Prelude.{◌≡◌, IfOk};
ghost use Rattle.msg_wire.specs.Valid.{IsValidConfig};
ghost use Rattle.msg_wire.specs.Steps.{AreValidMessages};
ghost use Rattle.net_model.specs.Pasts.{past_of, sent};
ghost use Rattle.report_text.specs.Report.{report_of};

use crate::gathered::gather;
use msg_wire::Config;
use net_model::History;
use quota_table::{Bytes, OutOfMemory};
use std::alloc::Global;

/// The report of a history, the oldest entry first: what was decided slot by slot and whether it is void, the confirmed
/// log position by position, what each consumer and each client showed, and at how many positions two records differ.
///
/// The cluster is valid, and so is each message that an entry sends: slots are below 1,000,000, and the entries of slots
/// have their fields in their ranges. Nodes, events and marks may be any.
///
/// One pass over the history gathers, and the lines are written from what was gathered. It is linear (times log) in
/// entries, messages, marks and bytes. Records, bodies and outputs are referred to, and not copied.
pub fn report(alloc: Global, cfg: &Config, history: &History) -> Result<Bytes, OutOfMemory>
    requires cluster { IsValidConfig cfg.now }
    requires messages { AreValidMessages (sent (past_of history.now)) }
    ensures { IfOk result (λ text. text ≡ report_of cfg.now history.now) }
{
    let gathered = gather(alloc, cfg, history)?;
    let mut text = Bytes::new(alloc);
    gathered.write(alloc, cfg, history.len(), &mut text)?;
    Ok(text)
}
