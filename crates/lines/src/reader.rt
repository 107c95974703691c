// The frame reader: it reads a line a byte at a time, each from two digits, "high first". `pair_at` and `over_at` do
// the work, and the parameters of `read_byte` and `is_read` are plain.
ghost use Rattle.std.specs.Prelude.{◌≡◌, ◌+◌, ◌<◌, length};
ghost use Rattle.lines.specs.Lines.{read_byte, no_byte_at};

use crate::digits::digit_of;

// "A frame reader holds the line and its place."
#[derive(Clone, Copy)]
pub struct FrameReader<'a> {
    pub line: &'a [u8],
    pub at: usize,
}

// A byte of a line, and whether its two digits are digits.
#[derive(Clone, Copy)]
pub struct ReadByte {
    pub value: u8,
    pub digits: bool,
}

// The work: of a line and a place in it, the byte whose two digits stand there, "high first".
fn pair_at(line: &[u8], at: usize) -> ReadByte
    requires { at + 1 < length line.now }
    ensures { result ≡ read_byte line.now at }
{
    let high = digit_of(line[at]);
    let low = digit_of(line[at + 1]);
    ReadByte {
        value: ((high as u32 * 16 + low as u32) % 256) as u8,
        digits: (high < 16) & (low < 16),
    }
}

// The work: fewer than two digits are left at a place of a line. It has no sum, since at + 1 could wrap.
fn over_at(line: &[u8], at: usize) -> bool
    ensures { result ≡ no_byte_at line.now at }
{
    let n = line.len();
    if at < n { n - at < 2 } else { true }
}

impl<'a> FrameReader<'a> {
    // A reader of a line, from a place on.
    pub fn new(line: &'a [u8], at: usize) -> FrameReader<'a>
        ensures { (result.line ≡ line.entry) × (result.at ≡ at) }
    {
        FrameReader { line, at }
    }

    // The byte at its place.
    pub fn next_byte(self) -> ReadByte
        requires { self.at + 1 < length self.line.now }
        ensures { result ≡ read_byte self.entry.line.now self.entry.at }
    {
        pair_at(self.line, self.at)
    }

    // No byte is left to it.
    pub fn done(self) -> bool
        ensures { result ≡ no_byte_at self.entry.line.now self.entry.at }
    {
        over_at(self.line, self.at)
    }
}

// The byte that a reader at the place reads.
pub fn read_byte(line: &[u8], at: usize) -> ReadByte
    requires { at + 1 < length line.now }
    ensures { result ≡ read_byte line.now at }
{
    FrameReader::new(line, at).next_byte()
}

// A reader at the place has no byte left.
pub fn is_read(line: &[u8], at: usize) -> bool
    ensures { result ≡ no_byte_at line.now at }
{
    FrameReader::new(line, at).done()
}
