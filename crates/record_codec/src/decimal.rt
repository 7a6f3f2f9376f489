//! Decimals, read.

ghost use Rattle.std.specs.Prelude.{◌≡◌, ◌≤◌, ◌<◌, ◌^◌, IfSome};
ghost use Rattle.record_codec.specs.Decimals.{number_in};

/// The number that a decimal of 1 to `most` digits spells; None for any other text.
pub fn number(most: usize, text: &[u8]) -> Option<u64>
    requires { most ≤ 18 }
    ensures number { result ≡ number_in most text.now }
    ensures below { IfSome result (λ n. n < 10 ^ most) }
{
    if text.is_empty() || text.len() > most {
        return None;
    }
    let mut value: u64 = 0;
    for digit in text {
        if !digit.is_ascii_digit() {
            return None;
        }
        value = value * 10 + u64::from(*digit - b'0');
    }
    Some(value)
}
