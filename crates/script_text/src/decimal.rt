//! Numbers of 1 to 18 digits, and their bounds.

ghost use Rattle.std.specs.Prelude.{◌≡◌, ◌≤◌, ◌<◌, ◌^◌, true, Some, None, if◌then◌else◌, IfSome, IfOk};
ghost use Rattle.script_text.specs.Words.{is_decimal, value_of};
ghost use Rattle.script_text.specs.Judged.{number_where, number_below, from_to};

use crate::kind::ScriptKind;
use record_codec::decimal::number as read;

/// The greatest number of digits.
const MOST_DIGITS: usize = 18;

/// The number that a decimal of 1 to 18 digits spells; None for any other word.
#[tactic(auto, unfolding(crate::specs::Words::is_decimal, crate::specs::Words::value_of))]
pub(crate) fn decimal(word: &[u8]) -> Option<u64>
    ensures number { result ≡ (if is_decimal word.now then Some (value_of word.now) else None) }
    ensures below { IfSome result (λ n. n < 10 ^ 18) }
{
    read(MOST_DIGITS, word)
}

/// Any number.
#[tactic(auto, unfolding(crate::specs::Judged::number_where))]
pub(crate) fn number(word: &[u8]) -> Result<u64, ScriptKind>
    ensures { result ≡ number_where (λ _. true) word.now }
{
    match decimal(word) {
        Some(value) => Ok(value),
        None => Err(ScriptKind::Number),
    }
}

/// A number from `least` to `most`.
#[tactic(auto, unfolding(crate::specs::Judged::number_where))]
pub(crate) fn number_within(word: &[u8], least: u64, most: u64) -> Result<u64, ScriptKind>
    ensures judged { result ≡ number_where (from_to least most) word.now }
    ensures most { IfOk result (λ n. n ≤ most) }
{
    match decimal(word) {
        Some(value) if least <= value && value <= most => Ok(value),
        Some(_) => Err(ScriptKind::Range),
        None => Err(ScriptKind::Number),
    }
}

/// A number below `limit`.
#[tactic(auto, unfolding(crate::specs::Judged::number_where, crate::specs::Judged::number_below))]
pub(crate) fn number_below(word: &[u8], limit: u64) -> Result<u64, ScriptKind>
    ensures judged { result ≡ number_below limit word.now }
    ensures below { IfOk result (λ n. n < limit) }
{
    match decimal(word) {
        Some(value) if value < limit => Ok(value),
        Some(_) => Err(ScriptKind::Range),
        None => Err(ScriptKind::Number),
    }
}
