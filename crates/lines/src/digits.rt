// Hexadecimal digits: "digits 0-9, A-F, two a byte, high first". "The digit's value comes from a
// 256-entry table, 255 for no digit." Lowercase letters are no digits.
ghost use Rattle.std.specs.Prelude.{◌≡◌, ◌<◌};
ghost use Rattle.lines.specs.Digits.{digit_of, glyph_of, digits_of};

// "255 for no digit"
pub const NO_DIGIT: u8 = 255;

// The two digits of a byte, as they stand on a line.
#[derive(Clone, Copy)]
pub struct Digits {
    pub high: u8,
    pub low: u8,
}

// The value of a digit, or 255.
pub fn digit_of(b: u8) -> u8
    ensures { result ≡ digit_of b }
{
    VALUES[b as usize]
}

// A byte as its two digits, high first.
pub fn digits_of(b: u8) -> Digits
    ensures { result ≡ digits_of b }
{
    Digits {
        high: glyph(b / 16),
        low: glyph(b % 16),
    }
}

// The byte that stands for a digit of the value.
fn glyph(value: u8) -> u8
    requires { value < 16 }
    ensures { result ≡ glyph_of value }
{
    if value < 10 {
        b'0' + value
    } else {
        b'A' + (value - 10)
    }
}

// What each byte is worth as a digit.
const VALUES: [u8; 256] = [
    255, 255, 255, 255, 255, 255, 255, 255, 255, 255, 255, 255, 255, 255, 255, 255, 255, 255, 255,
    255, 255, 255, 255, 255, 255, 255, 255, 255, 255, 255, 255, 255, 255, 255, 255, 255, 255, 255,
    255, 255, 255, 255, 255, 255, 255, 255, 255, 255, 0, // 0
    1, // 1
    2, // 2
    3, // 3
    4, // 4
    5, // 5
    6, // 6
    7, // 7
    8, // 8
    9, // 9
    255, 255, 255, 255, 255, 255, 255, 10, // A
    11, // B
    12, // C
    13, // D
    14, // E
    15, // F
    255, 255, 255, 255, 255, 255, 255, 255, 255, 255, 255, 255, 255, 255, 255, 255, 255, 255, 255,
    255, 255, 255, 255, 255, 255, 255, 255, // a: lowercase letters are no digits
    255, 255, 255, 255, 255, 255, 255, 255, 255, 255, 255, 255, 255, 255, 255, 255, 255, 255, 255,
    255, 255, 255, 255, 255, 255, 255, 255, 255, 255, 255, 255, 255, 255, 255, 255, 255, 255, 255,
    255, 255, 255, 255, 255, 255, 255, 255, 255, 255, 255, 255, 255, 255, 255, 255, 255, 255, 255,
    255, 255, 255, 255, 255, 255, 255, 255, 255, 255, 255, 255, 255, 255, 255, 255, 255, 255, 255,
    255, 255, 255, 255, 255, 255, 255, 255, 255, 255, 255, 255, 255, 255, 255, 255, 255, 255, 255,
    255, 255, 255, 255, 255, 255, 255, 255, 255, 255, 255, 255, 255, 255, 255, 255, 255, 255, 255,
    255, 255, 255, 255, 255, 255, 255, 255, 255, 255, 255, 255, 255, 255, 255, 255, 255, 255, 255,
    255, 255, 255, 255, 255, 255, 255, 255, 255, 255, 255, 255, 255, 255, 255, 255, 255, 255, 255,
    255, 255, 255, 255, 255, 255,
];
