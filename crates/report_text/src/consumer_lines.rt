//! The lines of a consumer, each by itself.

ghost use Rattle.std.specs.Prelude.{◌≡◌, ◌++◌, map, flat_map, OnOk};
ghost use Rattle.app_law.specs.AnyApps.{any_fresh, any_next, any_shown};
ghost use Rattle.app_law.specs.Folds.{shown_after};
ghost use Rattle.report_text.specs.Consumers.{consumer_line, notice_line, out_line, state_line};
ghost use Rattle.report_text.specs.inside.Consuming.{list_counts, other_counts};

use crate::text::{Put, put_counted};
use app_law::{AnyApp, App};
use quota_table::Bytes;
use record_codec::{AppKind, Record, Shown};

/// The shown state of an application after a log.
pub fn shown_after(app: AppKind, log: &[&Record]) -> Shown
    ensures { result ≡ shown_after any_next any_shown (any_fresh app) (map (λ r. r.now) log.now) }
{
    let mut state = AnyApp::fresh(app);
    for rec in log {
        let _undo = state.apply(rec);
    }
    state.show()
}

/// What a consumer's own line counts.
#[derive(Drop)]
pub struct Counts {
    pub confirmed: usize,
    pub applied: usize,
    pub early: usize,
    pub undone: usize,
    pub noticed: usize,
}

/// Puts a consumer's own line at the end.
#[tactic(auto, using(std::proofs::Common::append_assoc), unfolding(crate::specs::Consumers::consumer_line))]
pub fn put_counts(text: &mut Bytes, number: u64, counts: &Counts) -> Put
    ensures { OnOk result (text.new ≡ text.old ++ consumer_line number counts.now.confirmed counts.now.applied counts.now.early counts.now.undone counts.now.noticed) }
{
    put_list_counts(text, number, counts.confirmed, counts.applied)?;
    put_other_counts(text, counts.early, counts.undone, counts.noticed)
}

#[tactic(auto, using(std::proofs::Common::append_assoc))]
fn put_list_counts(text: &mut Bytes, number: u64, confirmed: usize, applied: usize) -> Put
    ensures { OnOk result (text.new ≡ text.old ++ list_counts number confirmed applied) }
{
    put_counted(text, b"consumer k", number)?;
    put_counted(text, b" confirmed ", confirmed as u64)?;
    put_counted(text, b" applied ", applied as u64)
}

#[tactic(auto, using(std::proofs::Common::append_assoc))]
fn put_other_counts(text: &mut Bytes, early: usize, undone: usize, noticed: usize) -> Put
    ensures { OnOk result (text.new ≡ text.old ++ other_counts early undone noticed) }
{
    put_counted(text, b" early ", early as u64)?;
    put_counted(text, b" undone ", undone as u64)?;
    put_counted(text, b" notices ", noticed as u64)?;
    text.push(b'\n')
}

/// Puts the line of each notice at the end.
pub fn put_notices(text: &mut Bytes, number: u64, notices: &[u64]) -> Put
    ensures { OnOk result (text.new ≡ text.old ++ flat_map (notice_line number) notices.now) }
{
    for first in notices {
        put_notice(text, number, *first)?;
    }
    Ok(())
}

#[tactic(auto, using(std::proofs::Common::append_assoc), unfolding(crate::specs::Consumers::notice_line))]
fn put_notice(text: &mut Bytes, number: u64, first: u64) -> Put
    ensures { OnOk result (text.new ≡ text.old ++ notice_line number first) }
{
    put_counted(text, b"notice k", number)?;
    put_counted(text, b" ", first)?;
    text.push(b'\n')
}

/// Puts the line of a piece of output at the end.
#[tactic(auto, using(std::proofs::Common::append_assoc), unfolding(crate::specs::Consumers::out_line))]
pub fn put_output(text: &mut Bytes, number: u64, bytes: &Bytes) -> Put
    ensures { OnOk result (text.new ≡ text.old ++ out_line number bytes.now) }
{
    put_counted(text, b"out k", number)?;
    text.extend_from_slice(b" ")?;
    text.extend_from_slice(bytes.as_slice())
}

/// Puts the line of the shown state at the end.
#[tactic(auto, using(std::proofs::Common::append_assoc), unfolding(crate::specs::Consumers::state_line))]
pub fn put_state(text: &mut Bytes, number: u64, shown: &Shown) -> Put
    ensures { OnOk result (text.new ≡ text.old ++ state_line number shown.now) }
{
    put_counted(text, b"state k", number)?;
    text.extend_from_parts(b" ", shown.as_slice(), b"\n")
}
