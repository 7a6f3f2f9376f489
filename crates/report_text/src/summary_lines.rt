//! The lines of a summary, each by itself.

ghost use Rattle.std.specs.Prelude.{◌≡◌, ◌++◌, OnOk};
ghost use Rattle.report_text.specs.Summary.{version_line, submitted_line, acked_line, totals_lines, data_line, quiet_line};

use crate::text::{Put, put_counted, put_total};
use quota_table::Bytes;

/// Puts the version, and what all clients were given and acknowledged, at the end.
#[tactic(auto, using(std::proofs::Common::append_assoc))]
pub fn put_totals(text: &mut Bytes, submitted: u128, acked: u128) -> Put
    ensures { OnOk result (text.new ≡ text.old ++ totals_lines submitted acked) }
{
    put_version(text)?;
    put_submitted(text, submitted)?;
    put_acked(text, acked)
}

#[tactic(auto, unfolding(crate::specs::Summary::version_line))]
fn put_version(text: &mut Bytes) -> Put
    ensures { OnOk result (text.new ≡ text.old ++ version_line) }
{
    text.extend_from_slice(b"belfast-run 1\n")
}

#[tactic(auto, using(std::proofs::Common::append_assoc), unfolding(crate::specs::Summary::submitted_line))]
fn put_submitted(text: &mut Bytes, submitted: u128) -> Put
    ensures { OnOk result (text.new ≡ text.old ++ submitted_line submitted) }
{
    put_total(text, b"submitted ", submitted)?;
    text.push(b'\n')
}

#[tactic(auto, using(std::proofs::Common::append_assoc), unfolding(crate::specs::Summary::acked_line))]
fn put_acked(text: &mut Bytes, acked: u128) -> Put
    ensures { OnOk result (text.new ≡ text.old ++ acked_line acked) }
{
    put_total(text, b"acked ", acked)?;
    text.push(b'\n')
}

/// Puts how many records of clients a consumer confirmed at the end.
#[tactic(auto, using(std::proofs::Common::append_assoc), unfolding(crate::specs::Summary::data_line))]
pub fn put_data(text: &mut Bytes, number: u64, count: usize) -> Put
    ensures { OnOk result (text.new ≡ text.old ++ data_line number count) }
{
    put_counted(text, b"consumer k", number)?;
    put_counted(text, b" data ", count as u64)?;
    text.push(b'\n')
}

/// Puts whether the run is quiet at the end.
#[tactic(auto, unfolding(crate::specs::Summary::quiet_line))]
pub fn put_quiet(text: &mut Bytes, quiet: bool) -> Put
    ensures { OnOk result (text.new ≡ text.old ++ quiet_line quiet) }
{
    if quiet {
        text.extend_from_slice(b"quiet yes\n")
    } else {
        text.extend_from_slice(b"quiet no\n")
    }
}
