// "One frame a line: digits 0-9, A-F, two a byte, high first, then LF." A line is read as a frame, and bytes
// are written as a line. A line that is read stands here without its LF: where it begins and ends in the input
// is not known here.
ghost use Rattle.std.specs.Prelude.{◌≡◌, cond, ◌+◌, ◌%◌, ◌≤◌, length};
ghost use Rattle.store.specs.Store.{over};
ghost use Rattle.lines.specs.Lines.{frame_of, all_digits, right_length, is_frame, line_of};

use crate::digits::digits_of;
use crate::reader::{is_read, read_byte};

// What ends a line.
pub const LINE_FEED: u8 = 10;

// ".. or over 72 digits is refused"
const LONGEST_LINE: usize = 72;

// Reads a line as a frame, and answers whether it is one. "A line with any byte but a digit (lowercase and CR
// too), of odd length, empty, or over 72 digits is refused": of one with a wrong length no byte is read.
pub fn frame_of(line: &[u8], frame: &mut [u8; 36]) -> bool
    ensures value { result ≡ is_frame line.now }
    ensures frame_after { frame.new ≡ cond (right_length line.now) (over frame.old 0 (frame_of line.now)) frame.old }
{
    let n = line.len();
    (n % 2 == 0) && (1..=LONGEST_LINE).contains(&n) && read_digits(line, frame)
}

// Reads the bytes of a line, each from its two digits, and answers whether all were digits.
fn read_digits(line: &[u8], frame: &mut [u8]) -> bool
    requires { (length line.now % 2 ≡ 0) × (length line.now ≤ length frame.old + length frame.old) }
    ensures value { result ≡ all_digits line.now }
    ensures frame_after { frame.new ≡ over frame.old 0 (frame_of line.now) }
{
    let mut ok = true;
    let mut i = 0;
    while !is_read(line, i) {
        let b = read_byte(line, i);
        frame[i / 2] = b.value;
        ok &= b.digits;
        i += 2;
    }
    ok
}

// Writes bytes as a line at `at`: their digits, "two a byte, high first", and an LF.
pub fn put_line(bytes: &[u8], out: &mut [u8], at: usize)
    requires { at + (length bytes.now + length bytes.now) + 1 ≤ length out.old }
    ensures { out.new ≡ over out.old at (line_of bytes.now) }
{
    for (i, byte) in bytes.iter().enumerate() {
        let digits = digits_of(*byte);
        let k = at + 2 * i;
        out[k] = digits.high;
        out[k + 1] = digits.low;
    }
    out[at + 2 * bytes.len()] = LINE_FEED;
}
