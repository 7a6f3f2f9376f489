ghost use Rattle.std.specs.Prelude.{◌≡◌, IfOk, option_copied};
ghost use Rattle.majority.specs.Proposers.{greater_report};

use std::alloc::AllocError;

/// A copy of a reported acceptance.
pub(crate) fn copied<V: Clone>(report: &Option<(u32, V)>) -> Result<Option<(u32, V)>, AllocError>
    requires { (value copy : V) → V.is_clone value copy → copy ≡ value }
    ensures { IfOk result (λ copy. copy ≡ report.now) }
{
    match report {
        Some((ballot, value)) => Ok(Some((*ballot, value.clone()?))),
        None => Ok(None),
    }
}

/// Of two reports the one of the greater ballot, the first where they are equal.
pub(crate) fn greater<'a, V>(
    first: Option<&'a (u32, V)>,
    second: Option<&'a (u32, V)>,
) -> Option<&'a (u32, V)>
    ensures { option_copied result ≡ greater_report (option_copied first.entry) (option_copied second.entry) }
{
    match (first, second) {
        (Some(earlier), Some(later)) => Some(if earlier.0 < later.0 { later } else { earlier }),
        (Some(earlier), None) => Some(earlier),
        (None, later) => later,
    }
}
