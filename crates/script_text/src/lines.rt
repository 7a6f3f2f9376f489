//! The lines of a text that count, one after another.

ghost use Rattle.std.specs.Prelude.{◌≡◌, ◌≤◌, ◌<◌, ◌==◌, [], ◌∷◌, length, take, ◌-◌, position, MatchOption, IsTrue, IfNone, IfSome};
ghost use Rattle.std.specs.List.{list_all};
ghost use Rattle.std.specs.Str.Lines.{lines, strip_carriage_return};
ghost use Rattle.script_text.specs.Lines.{counts, whole, left_of, end_of};
ghost use Rattle.script_text.specs.Words.{is_plain};
ghost use Rattle.script_text.specs.Scripts.{ArePrintable};

use std::marker::Model;

/// A line that counts.
#[derive(Clone, Copy)]
pub(crate) struct Line<'a> {
    /// Its place among all lines of the text, from 1.
    pub number: u32,
    pub bytes: &'a [u8],
}

/// What is left of a text. Contracts see it as that part, and the number of its first line.
#[derive(Drop)]
pub(crate) struct Lines<'a> {
    /// The bytes from the next line on.
    rest: &'a [u8],
    /// The number of the next line.
    number: u32,
}

impl<'a> Model for Lines<'a> {
    ghost use Rattle.std.specs.Prelude.{◌+◌, ◌<◌, ◌^◌, length};
    ghost use Rattle.script_text.specs.Lines.{Rest};

    ghost Value = { Rest };

    ghost view = { λ l. record { number = l.number; text = l.rest.now } };

    ghost invariant = { λ l. l.number + length l.rest.now < 2 ^ 32 };
}

impl<'a> Lines<'a> {
    /// All lines of a text.
    pub fn new(text: &'a [u8]) -> Lines<'a>
        requires { length text.now ≤ 16777216 }
        ensures { result ≡ whole text.now }
    {
        Lines {
            rest: text,
            number: 1,
        }
    }

    /// The number of the next line.
    pub fn number(&self) -> u32
        ensures { result ≡ self.now.number }
    {
        self.number
    }

    /// Whether each byte that is left is printable or a newline: then each line is printable.
    #[tactic(auto, unfolding(crate::specs::Lines::left_of))]
    pub fn are_plain(&self) -> bool
        ensures { IsTrue result → ArePrintable (left_of self.now) }
    {
        is_plain(self.rest)
    }

    /// The next line that counts. At None the text is read, and `number` is that of the line after its last one.
    #[tactic(auto, unfolding(crate::specs::Lines::left_of, crate::specs::Lines::end_of))]
    pub fn next(&mut self) -> Option<Line<'a>>
        ensures line { MatchOption result (left_of self.old ≡ [])
            (λ l. left_of self.old ≡ record { number = l.number; bytes = l.bytes.now } ∷ left_of self.new) }
        ensures end { end_of self.new ≡ end_of self.old }
        ensures none { IfNone result (self.new.number ≡ end_of self.old) }
        ensures shorter { IfSome result (λ _. length self.new.text < length self.old.text) }
    {
        while !self.rest.is_empty() {
            let (bytes, rest) = split_line(self.rest);
            let number = self.number;
            self.rest = rest;
            self.number = number + 1;
            if is_counted(bytes) {
                return Some(Line { number, bytes });
            }
        }
        None
    }
}

/// Whether each byte is printable or a newline. It goes on behind one that is not, so that several are judged at a time.
fn is_plain(text: &[u8]) -> bool
    ensures { result ≡ list_all is_plain text.now }
{
    let mut plain = true;
    for byte in text {
        plain &= is_plain_byte(*byte);
    }
    plain
}

fn is_plain_byte(byte: u8) -> bool
    ensures { result ≡ is_plain byte }
{
    (byte >= 0x20 && byte <= 0x7e) || byte == b'\n'
}

/// What stands in a text before a line, all of it where the text has fewer lines.
pub(crate) fn text_before(text: &[u8], line: u32) -> &[u8]
    ensures lines { lines result.now ≡ take (line - 1) (lines text.now) }
    ensures size { length result.now ≤ length text.now }
{
    &text[..end_of_lines(text, line.saturating_sub(1))]
}

/// Where the first `count` lines of a text end.
fn end_of_lines(text: &[u8], count: u32) -> usize
    ensures within { result ≤ length text.now }
    ensures lines { lines (take result text.now) ≡ take count (lines text.now) }
{
    let mut at = 0;
    for _line in 0..count {
        match newline(&text[at..]) {
            Some(end) => at += end + 1,
            None => return text.len(),
        }
    }
    at
}

/// Whether a line is neither empty nor a comment.
fn is_counted(line: &[u8]) -> bool
    ensures { result ≡ counts line.now }
{
    match line.first() {
        Some(byte) => *byte != b'#',
        None => false,
    }
}

/// The first line of a text that has one, and what follows it.
fn split_line(text: &[u8]) -> (&[u8], &[u8])
    requires { 0 < length text.now }
    ensures first { lines text.now ≡ result.0.now ∷ lines result.1.now }
    ensures shorter { length result.1.now < length text.now }
{
    match newline(text) {
        Some(end) => (without_return(&text[..end]), &text[end + 1..]),
        None => (text, &[]),
    }
}

/// Where the first newline stands.
fn newline(text: &[u8]) -> Option<usize>
    ensures { result ≡ position (λ b. b == 10) text.now }
{
    text.iter().position(|byte| *byte == b'\n')
}

/// The bytes before a newline without the one carriage return at their end.
fn without_return(line: &[u8]) -> &[u8]
    ensures { result.now ≡ strip_carriage_return line.now }
{
    match line.split_last() {
        Some((b'\r', front)) => front,
        _ => line,
    }
}
