//! What grows a replica's log, and nothing else of it.

ghost use Rattle.std.specs.Prelude.{◌≡◌, ◌++◌, ◌∷◌, [], replicate, OnOk};
ghost use Rattle.record_codec.specs.Records.{IsValidRecord};
ghost use Rattle.node_rules.specs.Names.records.{Noop};
ghost use Rattle.node_rules.specs.Nodes.{with_own};
ghost use Rattle.shard_node.specs.States.{with_log};

use crate::state::Replica;
use node_rules::Done;
use record_codec::Record;

/// Puts a record at the log's end.
pub fn put_record(replica: &mut Replica, rec: &Record) -> Done
    requires { IsValidRecord rec.now }
    ensures { OnOk result (replica.new ≡ with_own (with_log (replica.old.own.log ++ rec.now ∷ []) replica.old.own) replica.old) }
{
    let rec = rec.clone()?;
    let len = replica.own.log.len();
    let _grown = replica.own.log.append_at(len, rec)?;
    Ok(())
}

/// Fills places at the log's end.
pub fn put_noops(replica: &mut Replica, count: u8) -> Done
    ensures { OnOk result (replica.new ≡ with_own (with_log (replica.old.own.log ++ replicate count Noop) replica.old.own) replica.old) }
{
    for _place in 0..count {
        let _local = replica.own.log.append_noop()?;
    }
    Ok(())
}
