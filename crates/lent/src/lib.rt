// Single parts of a state that lies behind a reference, read and written in place, so that a request copies no
// table. A number past the last names no row: it reads as the row of nothing, and to write it changes nothing.
//
// Each function here is thin, and says in one equation which part it reads or replaces.
#![tactic(auto)]

ghost use Rattle.std.specs.Prelude.{◌≡◌, get_or, length, set, take};
ghost use Rattle.numbers.specs.Numbers.{most_threads, most_tags, most_objects, most_remembered};
ghost use Rattle.tables.specs.Things.{no_thread, tag_at, object_at};
ghost use Rattle.state.specs.Start.{cleared};
ghost use Rattle.links.specs.Links.{find_in};
ghost use Rattle.memory.specs.Notes.{tally_of};
ghost use Rattle.lent.specs.Lent.{counts_of, thread_put, tag_put, object_put, counts_put, note_put};

use memory::{Note, Tally};
use state::State;
use tables::rows::{ObjectRow, TagRow, ThreadRow, no_object, no_tag, no_thread};

// How many principals, tags and links of each sort there are.
#[derive(Clone, Copy)]
pub struct Counts {
    pub principals: u32,
    pub links: usize,
    pub tags: u32,
    pub grants: usize,
}

// ---- what is read

pub fn thread_at(s: &State, n: usize) -> ThreadRow
    ensures { result ≡ get_or s.now.tables.threads n no_thread }
{
    s.tables.threads.get(n).copied().unwrap_or(no_thread())
}

pub fn tag_at(s: &State, n: usize) -> TagRow
    ensures { result ≡ tag_at s.now.tables.kinds n }
{
    s.tables.kinds.get(n).copied().unwrap_or(no_tag())
}

pub fn object_at(s: &State, n: usize) -> ObjectRow
    ensures { result ≡ object_at s.now.tables.objects n }
{
    s.tables.objects.get(n).copied().unwrap_or(no_object())
}

pub fn counts_of(s: &State) -> Counts
    ensures { result ≡ counts_of s.now.tables }
{
    Counts {
        principals: s.tables.principals,
        links: s.tables.links,
        tags: s.tables.tags,
        grants: s.tables.grants,
    }
}

pub fn tally(s: &State) -> Tally
    ensures { result ≡ tally_of s.now.memory }
{
    Tally {
        size: s.memory.size,
        held: s.memory.held,
        questions: s.memory.questions,
        hits: s.memory.hits,
    }
}

// Where the pair x stands among the first n that are remembered.
pub fn place_of(s: &State, n: usize, x: u32) -> Option<usize>
    ensures { result ≡ find_in (take n s.now.memory.pairs) x }
{
    memory::place(&s.memory.pairs, n, x)
}

// How many rows the tables have and how many pairs the memory, which their types say: for a caller that reasons about
// a state that lies behind a reference. Nothing is done.
pub fn sized(s: &State)
    ensures threads { length s.now.tables.threads ≡ most_threads }
    ensures kinds { length s.now.tables.kinds ≡ most_tags }
    ensures objects { length s.now.tables.objects ≡ most_objects }
    ensures pairs { length s.now.memory.pairs ≡ most_remembered }
{
    let _threads: &[ThreadRow] = &s.tables.threads;
    let _kinds: &[TagRow] = &s.tables.kinds;
    let _objects: &[ObjectRow] = &s.tables.objects;
    let _pairs: &[u32] = &s.memory.pairs;
}

// ---- what is written

// A row of any table is replaced.
#[tactic(auto, using(std::proofs::lemmas::List::set_past))]
fn put_row<T: Copy>(rows: &mut [T], n: usize, row: T)
    ensures { rows.new ≡ set rows.old n row }
{
    if n < rows.len() {
        rows[n] = row;
    }
}

pub fn put_thread(s: &mut State, n: usize, row: ThreadRow)
    ensures { s.new ≡ thread_put s.old n row }
{
    put_row(&mut s.tables.threads, n, row);
}

pub fn put_tag(s: &mut State, n: usize, row: TagRow)
    ensures { s.new ≡ tag_put s.old n row }
{
    put_row(&mut s.tables.kinds, n, row);
}

pub fn put_object(s: &mut State, n: usize, row: ObjectRow)
    ensures { s.new ≡ object_put s.old n row }
{
    put_row(&mut s.tables.objects, n, row);
}

pub fn put_counts(s: &mut State, c: Counts)
    ensures { s.new ≡ counts_put s.old c }
{
    s.tables.principals = c.principals;
    s.tables.links = c.links;
    s.tables.tags = c.tags;
    s.tables.grants = c.grants;
}

// The memory's numbers and pairs, as a note of them says.
pub fn note(s: &mut State, n: Note)
    ensures { s.new ≡ note_put s.old n }
{
    s.memory.held = n.held;
    s.memory.questions = n.questions;
    s.memory.hits = n.hits;
    memory::renew(&mut s.memory.pairs, n.pairs);
}

// "The host may clear the memory between requests; this leaves the counters."
#[tactic(auto, using(memory::proofs::Asking::forgets))]
pub fn forget(s: &mut State)
    ensures { s.new ≡ cleared s.old }
{
    let t = tally(s);
    note(s, memory::forgotten(t));
}
