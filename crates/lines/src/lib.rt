// Lines (01, "Lines"): requests and answers as hexadecimal digits.
#![tactic(auto)]

mod digits;
mod line;
mod reader;

pub use digits::{Digits, NO_DIGIT, digit_of, digits_of};
pub use line::{LINE_FEED, frame_of, put_line};
pub use reader::{FrameReader, ReadByte, is_read, read_byte};
