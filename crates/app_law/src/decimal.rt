ghost use Rattle.std.specs.Prelude.{◌≡◌, ◌+◌, ◌++◌, ◌≤◌, length, decimal};

use itoa::Buffer;
use record_codec::ShortText;

/// Puts a number's decimal at the end.
pub fn write_decimal<const N: usize>(number: u64, into: &mut ShortText<N>)
    requires { length into.old + 20 ≤ N }
    ensures decimal { into.new ≡ into.old ++ decimal number }
    ensures short { length into.new ≤ length into.old + 20 }
{
    into.extend_from_slice(Buffer::new().format(number).as_bytes());
}
