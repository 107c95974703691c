// Answers (01, "Refusal numbers"): "An answer is a status byte (00 or the number), then on done the value byte,
// or for a message its length and bytes. It is put at the front of the lent buffer, a message into the part
// after its length byte; the rest of the buffer stays. A refusal writes its one byte".
//
// 10 writes nothing, so it is no answer here; 11 is told at the start only.
#![tactic(auto)]

ghost use Rattle.std.specs.Prelude.{◌≡◌, ◌∷◌, ◌≤◌, length};
ghost use Rattle.answers.specs.Answers.{status_of, length_of, front, answer_bytes, Ready};

use frames::requests::Span;

// Refusals 1 to 9, in order of check.
#[derive(Clone, Copy, PartialEq, Eq)]
pub enum Refusal {
    Malformed = 1,
    NotLive = 2,
    Unnamed = 3,
    Flow = 4,
    Authority = 5,
    Cycle = 6,
    Full = 7,
    Empty = 8,
    BrokenRule = 9,
}

// A message is kept at a place of the store, or was given in the frame.
#[derive(Clone, Copy, PartialEq, Eq)]
pub enum Answer {
    Refused(Refusal),
    Done,
    Value(u8),
    Kept(usize),
    Given(Span),
}

pub fn status_of(a: Answer) -> u8
    ensures { result ≡ status_of a }
{
    match a {
        Answer::Refused(r) => r as u8,
        _ => 0,
    }
}

// How many bytes `write` puts at the front of the buffer.
pub fn length_of<'a>(a: Answer, frame: &'a [u8], store: &'a [u8]) -> usize
    requires { Ready frame.now store.now a }
    ensures { result ≡ length_of store.now a }
{
    match a {
        Answer::Refused(_) | Answer::Done => 1,
        Answer::Value(_) => 2,
        Answer::Kept(at) => 2 + store[at] as usize,
        Answer::Given(m) => 2 + m.len,
    }
}

// Done, with a message: its length, and its bytes into the part of the buffer after it.
fn write_message(message: &[u8], answer: &mut [u8])
    requires { (length message.now ≤ 32) × (34 ≤ length answer.old) }
    ensures { answer.new ≡ front (0 ∷ length message.now ∷ message.now) answer.old }
{
    let n = message.len();
    answer[0] = 0;
    answer[1] = n as u8;
    answer[2..2 + n].copy_from_slice(message);
}

// An answer at the front of the lent buffer. A message is read from the frame or the store.
pub fn write<'a>(a: Answer, frame: &'a [u8], store: &'a [u8], answer: &mut [u8])
    requires { Ready frame.now store.now a × (34 ≤ length answer.old) }
    ensures { answer.new ≡ front (answer_bytes frame.now store.now a) answer.old }
{
    match a {
        Answer::Refused(r) => answer[0] = r as u8,
        Answer::Done => answer[0] = 0,
        Answer::Value(v) => {
            answer[0] = 0;
            answer[1] = v;
        }
        Answer::Kept(at) => write_message(store::message(store, at), answer),
        Answer::Given(m) => write_message(&frame[m.at..m.at + m.len], answer),
    }
}
