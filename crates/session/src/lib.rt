// A list of lines fed byte by byte: a session has the state, the lists of links and the line in the making, and goes
// from one block of input to the next. Its lists are records, and lent for each request. A block is read while the
// output buffer has room for an answer, so that no half of one is ever written.
#![tactic(auto)]

ghost use Rattle.std.specs.Prelude.{◌≡◌, ◌+◌, ◌≤◌, leb, length};
ghost use Rattle.store.specs.Store.{over};
ghost use Rattle.monitor.specs.Monitor.{shortest_buffer};
ghost use Rattle.entry.specs.Entry.{reply_in};
ghost use Rattle.session.specs.Session.{line_bytes, pushed, no_line, session_of, opened, answer_of, answered, turned, printed, last_line};
ghost use Rattle.session.specs.Run.{answer_room, ending_room, fed, fed_session, fed_bytes, end_session, end_bytes, finished, ran, ran_session, ran_bytes};

use entry::{Lists, Reply, no_links, request};
use lines::{LINE_FEED, frame_of, put_line};
use memory::Memory;
use state::{State, start};

// Of a line no more is kept than tells that it is too long.
const KEPT: usize = 73;

// The longest answer as a line.
const ANSWER_ROOM: usize = 69;

// The longest ending: an answer and the last line.
const ENDING_ROOM: usize = 88;

// The last line.
const LAST_LINE: usize = 19;

// A line in the making.
#[derive(Clone, Copy)]
pub struct Line {
    pub held: usize,
    pub bytes: [u8; KEPT],
}

impl Line {
    // No byte yet.
    fn new() -> Line
        ensures { result ≡ no_line }
    {
        Line {
            held: 0,
            bytes: [0; KEPT],
        }
    }

    // Its bytes.
    fn held_bytes(&self) -> &[u8]
        ensures { result.now ≡ line_bytes self.now }
    {
        &self.bytes[..self.held.min(KEPT)]
    }

    // One byte more, where there is a place for it.
    fn push(&mut self, byte: u8)
        ensures { self.new ≡ pushed self.old byte }
    {
        if self.held < KEPT {
            self.bytes[self.held] = byte;
            self.held += 1;
        }
    }
}

// What is carried from byte to byte, beside the store.
#[derive(Drop)]
pub struct Session {
    pub state: State,
    pub lists: Lists,
    pub line: Line,
}

// What a block of input leaves beside the session: how much of it was read, and how much was written.
#[derive(Clone, Copy)]
pub struct Fed {
    pub read: usize,
    pub written: usize,
}

// What a whole list leaves. The status is 0, or 11 at a start that was refused.
#[derive(Clone, Copy)]
pub struct Ran {
    pub status: u8,
    pub state: State,
    pub lists: Lists,
    pub read: usize,
    pub written: usize,
    pub complete: bool,
}

impl Session {
    // Before the first byte, from this state, with no links.
    pub fn new(state: State) -> Session
        ensures { result ≡ opened state }
    {
        Session {
            state,
            lists: no_links(),
            line: Line::new(),
        }
    }

    // The line as it stands, taken as a whole one: its frame is a request; or "refused 1: 01 is printed for it and
    // nothing changes".
    fn answer_line(&mut self, store: &mut [u8], answer: &mut [u8]) -> Reply
        requires { shortest_buffer ≤ length answer.old }
        ensures value { result ≡ reply_in (answer_of (session_of self.old store.old) answer.old).replied }
        ensures session_after { session_of self.new store.new ≡ answered (session_of self.old store.old) answer.old }
        ensures answer_after { answer.new ≡ (answer_of (session_of self.old store.old) answer.old).answer }
    {
        let line = self.line.held_bytes();
        let mut frame = [0; 36];
        if !frame_of(line, &mut frame) {
            answer[0] = 1;
            return Reply {
                status: 1,
                written: 1,
            };
        }
        let n = line.len() / 2;
        request(
            &mut self.state,
            &mut self.lists.links,
            &mut self.lists.grants,
            store,
            &frame[..n],
            answer,
        )
    }

    // The end of a line: "prints one answer a line". How many bytes that is.
    fn end_line(&mut self, store: &mut [u8], out: &mut [u8], at: usize) -> usize
        requires { at + answer_room ≤ length out.old }
        ensures value { result ≡ length (printed (session_of self.old store.old)) }
        ensures session_after { session_of self.new store.new ≡ turned (session_of self.old store.old) }
        ensures out_after { out.new ≡ over out.old at (printed (session_of self.old store.old)) }
        ensures written_le_answer_room { result ≤ answer_room }
    {
        let mut answer = [0; 34];
        let n = self.answer_line(store, &mut answer).written;
        put_line(&answer[..n], out, at);
        self.line.held = 0;
        n + n + 1
    }

    // A block of input, while there is room for an answer.
    pub fn feed(&mut self, store: &mut [u8], input: &[u8], out: &mut [u8]) -> Fed
        ensures value { result ≡ fed (session_of self.old store.old) input.now out.old }
        ensures session_after { session_of self.new store.new ≡ fed_session (session_of self.old store.old) input.now out.old }
        ensures out_after { out.new ≡ over out.old 0 (fed_bytes (session_of self.old store.old) input.now out.old) }
    {
        let mut written = 0;
        for (read, byte) in input.iter().enumerate() {
            if out.len() - written < ANSWER_ROOM {
                return Fed { read, written };
            }
            if *byte == LINE_FEED {
                written += self.end_line(store, out, written);
            } else {
                self.line.push(*byte);
            }
        }
        Fed {
            read: input.len(),
            written,
        }
    }

    // The end of the input: "A last line without LF counts if it has a byte", and the last line. All of it is
    // written at `at`, and how many bytes that is; or nothing where there is no room.
    pub fn finish(&mut self, store: &mut [u8], out: &mut [u8], at: usize) -> Option<usize>
        ensures value { result ≡ finished (session_of self.old store.old) out.old at }
        ensures session_after { session_of self.new store.new ≡ end_session (session_of self.old store.old) out.old at }
        ensures out_after { out.new ≡ over out.old at (end_bytes (session_of self.old store.old) out.old at) }
    {
        if !can_end(out.len(), at) {
            return None;
        }
        let n = if self.line.held == 0 {
            0
        } else {
            self.end_line(store, out, at)
        };
        put_last(self.state.memory, out, at + n);
        Some(n + LAST_LINE)
    }
}

// The last line: "FF, questions, hits (4 bytes each, high first)".
fn put_last(m: Memory, out: &mut [u8], at: usize)
    requires { at + 19 ≤ length out.old }
    ensures { out.new ≡ over out.old at (last_line m) }
{
    let mut bytes = [0xFF; 9];
    bytes[1..5].copy_from_slice(&m.questions.to_be_bytes());
    bytes[5..].copy_from_slice(&m.hits.to_be_bytes());
    put_line(&bytes, out, at);
}

// There is room for the longest ending at `at`.
fn can_end(length: usize, at: usize) -> bool
    ensures { result ≡ leb (at + ending_room) length }
{
    at.checked_add(ENDING_ROOM).is_some_and(|end| end <= length)
}

// A whole list from the fresh state with this memory size. Where the output buffer has no room for all of it,
// what was read and written is said, and the list is not complete.
pub fn run(size: usize, store: &mut [u8], input: &[u8], out: &mut [u8]) -> Ran
    ensures value { result ≡ ran size store.old input.now out.old }
    ensures store_after { store.new ≡ (ran_session size store.old input.now out.old).store }
    ensures out_after { out.new ≡ over out.old 0 (ran_bytes size store.old input.now out.old) }
{
    let first = start(size, store);
    let mut session = Session::new(first.state);
    let fed = session.feed(store, input, out);
    let last = if fed.read < input.len() {
        None
    } else {
        session.finish(store, out, fed.written)
    };
    Ran {
        status: first.status,
        state: session.state,
        lists: session.lists,
        read: fed.read,
        written: fed.written + last.unwrap_or(0),
        complete: last.is_some(),
    }
}
