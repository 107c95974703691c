// Refusal 1 (01, "Refusal numbers"): "frame under 2 bytes, unknown kind, wrong length, message over 32, object
// kind over 2". The length of a frame is looked up by kind.
ghost use Rattle.std.specs.Prelude.{◌≡◌};
ghost use Rattle.frames.specs.Requests.{fixed_length, length_byte, message_length, well_formed};

use crate::decode::byte_at;
use numbers::LONGEST;

// How long a frame of a kind is, but for the bytes of a message.
#[tactic(auto, unfolding(crate::specs::Requests::fixed_length))]
fn fixed_length(kind: u8) -> u8
    ensures { result ≡ fixed_length kind }
{
    match kind {
        0x01 | 0x05 | 0x0F | 0x11 => 2,
        0x06 | 0x09..=0x0E | 0x10 | 0x13 | 0x14 | 0x17..=0x1B => 3,
        0x02..=0x04 | 0x15 | 0x16 => 4,
        0x07 | 0x08 => 5,
        0x12 => 19,
        _ => 0,
    }
}

// Where the length byte of its message stands; 0 where it has none.
#[tactic(auto, unfolding(crate::specs::Requests::length_byte))]
fn length_byte(kind: u8) -> u8
    ensures { result ≡ length_byte kind }
{
    match kind {
        0x15 | 0x16 => 3,
        0x1A | 0x1B => 2,
        _ => 0,
    }
}

fn message_length(frame: &[u8]) -> u8
    ensures { result ≡ message_length frame.now }
{
    let at = length_byte(byte_at(frame, 1));
    if at == 0 {
        0
    } else {
        byte_at(frame, at as usize)
    }
}

// The frame is not refused 1.
#[tactic(auto, unfolding(crate::specs::Requests::well_formed))]
pub fn well_formed(frame: &[u8]) -> bool
    ensures { result ≡ well_formed frame.now }
{
    let n = frame.len();
    let kind = byte_at(frame, 1);
    let message = message_length(frame);
    let length = fixed_length(kind) as usize + message as usize;
    let known = (0 < kind) & (kind < 0x1C);
    let object = (kind != 0x12) | (byte_at(frame, 2) <= 2);
    (2 <= n) & (known & ((n == length) & ((message <= LONGEST) & object)))
}
