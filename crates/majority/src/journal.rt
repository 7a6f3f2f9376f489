ghost use Rattle.std.specs.Prelude.{◌≡◌, ◌+◌, ◌*◌, ◌<◌, ◌≤◌, IfOk, IfErr, OnOk, All, length, option_copied, slice_get};
ghost use Rattle.majority.specs.Journals.{vote_found, greatest_at, IsRecovered, AreOfReplicas, IsRecoverError};

use crate::errors::RecoverError;
use crate::report;
use quota_table::{Listed, OutOfMemory};
use std::alloc::Global;

/// What one replica accepted: for slot after slot its last acceptance, with its ballot.
pub type Votes<V> = Listed<Option<(u32, V)>>;

/// Values of slots, in their order.
pub type ValueList<V> = Listed<V>;

/// The votes that one replica has kept.
#[derive(Debug, Drop)]
pub struct VoteJournal<V> {
    /// The replica's number.
    pub replica: u8,
    /// Its acceptance for each slot from 0 on; past the end there is none.
    pub votes: Votes<V>,
}

/// The values that the journals of distinct replicas below `n` tell: slot after slot that of the greatest ballot, of the
/// first journal among equals, up to the first slot in which no journal has an acceptance.
///
/// `NoMajority` comes exactly where twice the number of journals is at most `n`.
pub fn recover<V: Clone>(
    alloc: Global,
    n: u8,
    journals: &[VoteJournal<V>],
) -> Result<ValueList<V>, RecoverError>
    requires replicas { AreOfReplicas n journals.now }
    requires exact { (value copy : V) → V.is_clone value copy → copy ≡ value }
    ensures values { IfOk result (IsRecovered journals.now) }
    ensures enough { OnOk result (n < 2 * length journals.now) }
    ensures cause { IfErr result (IsRecoverError n (length journals.now)) }
{
    if journals.len() <= usize::from(n / 2) {
        return Err(RecoverError::NoMajority {
            have: journals.len() as u8,
            need: n / 2 + 1,
        });
    }
    told_values(alloc, journals).map_err(|_| RecoverError::OutOfMemory)
}

/// The values that the journals tell, however few they are.
fn told_values<V: Clone>(
    alloc: Global,
    journals: &[VoteJournal<V>],
) -> Result<ValueList<V>, OutOfMemory>
    requires { (value copy : V) → V.is_clone value copy → copy ≡ value }
    ensures { IfOk result (IsRecovered journals.now) }
{
    let mut values = Listed::new(alloc);
    for slot in 0..longest(journals) {
        match greatest_at(slot, journals) {
            Some((_, value)) => values.push(value.clone()?)?,
            None => return Ok(values),
        }
    }
    Ok(values)
}

/// A number of slots that no journal passes.
fn longest<V>(journals: &[VoteJournal<V>]) -> u64
    ensures { All (λ journal. length journal.votes ≤ result) journals.now }
{
    let mut most = 0;
    for journal in journals {
        most = most.max(journal.votes.len() as u64);
    }
    most
}

/// The acceptance of the greatest ballot that the journals have for the slot, of the first journal among equals.
fn greatest_at<V>(slot: u64, journals: &[VoteJournal<V>]) -> Option<&(u32, V)>
    ensures { option_copied result ≡ greatest_at slot journals.now }
{
    let mut best = None;
    for journal in journals {
        best = report::greater(best, vote_at(slot, journal));
    }
    best
}

/// The journal's acceptance for the slot.
fn vote_at<V>(slot: u64, journal: &VoteJournal<V>) -> Option<&(u32, V)>
    ensures { option_copied result ≡ vote_found (slice_get journal.now.votes slot) }
{
    match journal.votes.get(slot) {
        Some(Some(vote)) => Some(vote),
        _ => None,
    }
}
