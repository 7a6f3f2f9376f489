ghost use Rattle.std.specs.Prelude.{◌≡◌, ◌++◌, OnOk};
ghost use Rattle.report_text.specs.Lines.{counted};

use itoa::Buffer;
use quota_table::{Bytes, OutOfMemory};

/// What putting text at the end answers: it is done, or memory was refused.
pub type Put = Result<(), OutOfMemory>;

/// Puts words at the end, and the number that follows them.
#[inline(always)]
pub fn put_counted(text: &mut Bytes, words: &[u8], number: u64) -> Put
    ensures { OnOk result (text.new ≡ text.old ++ counted words.now number) }
{
    text.extend_from_slice(words)?;
    text.extend_from_slice(Buffer::new().format(number).as_bytes())
}

/// The same with a sum of lengths, which may need more bits than one length has.
pub fn put_total(text: &mut Bytes, words: &[u8], number: u128) -> Put
    ensures { OnOk result (text.new ≡ text.old ++ counted words.now number) }
{
    text.extend_from_slice(words)?;
    text.extend_from_slice(Buffer::new().format(number).as_bytes())
}
