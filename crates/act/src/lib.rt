// What one request does (01), behind the check of 9 and on what it sees of the tables: refusal 1, then 2, 3 and 4, then
// the question of authority where the request asks one, then 5 to 8 of its kind's row, or what is done. Its answer and
// its change of the store are made here; what is to change in the lists of links, in the tables and in the memory is
// told, and whoever holds them changes them (crates `step` and `monitor`).
//
// What is decided sees only the answer to the question, not the memory; and nothing is changed before all is decided.
#![tactic(auto)]

ghost use Rattle.std.specs.Prelude.{◌≡◌, ◌≤◌, length};
ghost use Rattle.memory.specs.Notes.{as_is};
ghost use Rattle.outcomes.specs.Outcomes.{refused};
ghost use Rattle.answers.specs.Answers.{answer_bytes, front};
ghost use Rattle.apply.specs.Apply.{apply_store, ListFits, RowFits};
ghost use Rattle.act.specs.World.{HasRoom};
ghost use Rattle.act.specs.Step.{removes};
ghost use Rattle.act.specs.Act.{row_weighed, weighed_by, notes, counts_in, writes_of, acted, asking_of, question_of};

use answers::{Refusal, length_of, status_of, write};
use apply::rows::{Writes, row_writes};
use apply::{apply_store, count_after};
use decide::decide;
use frames::decode::{byte_at, request_of};
use frames::form::well_formed;
use frames::requests::Request;
use lent::Counts;
use links::{Leaves, LinkList};
use memory::{Note, Tally, as_is, pair_of, wiped};
use numbers::Thread;
use outcomes::{ListChange, Outcome, refused};
use prelude::{asks_authority, check};
use sight::{Sight, tag_named};
use tables::rows::ThreadRow;

// What a frame asks: of which thread, and which row of the tables that is, and the request.
#[derive(Clone, Copy)]
pub struct Asking {
    pub thread: Thread,
    pub row: usize,
    pub request: Request,
}

pub fn asking_of(frame: &[u8]) -> Asking
    ensures { result ≡ asking_of frame.now }
{
    let n = byte_at(frame, 0);
    let thread = Thread(n);
    let request = request_of(frame);
    Asking {
        thread,
        row: n as usize,
        request,
    }
}

// Which pair the memory is asked about; none, where a request asks for no authority.
pub fn question_of(s: Sight, r: Request) -> Option<u32>
    ensures { result ≡ question_of s r }
{
    asks_authority(s, r).then_some(pair_of(s.caller.principal, tag_named(r)))
}

// What a request knows of the memory: its numbers, and where the pair stands that it asks about.
#[derive(Clone, Copy)]
pub struct Recalled {
    pub tally: Tally,
    pub place: Option<usize>,
}

// What a request comes to, and what its question leaves to write into the memory.
#[derive(Clone, Copy)]
struct Weighed {
    pub outcome: Outcome,
    pub note: Note,
}

// What a request gives beside the lent buffers: its number or 0, how many bytes of the answer buffer were written, what
// is to change in the lists of links, and what is to be written into the state.
#[derive(Clone, Copy)]
pub struct Acted {
    pub status: u8,
    pub written: usize,
    pub links: ListChange,
    pub grants: ListChange,
    pub writes: Writes,
    pub note: Note,
}

// Past 2, 3 and 4: the question, where there is one, and the kind's row.
fn follow_row<'a>(s: Sight, m: Recalled, links: &'a [u32], grants: &'a [u32], r: Request) -> Weighed
    ensures { result ≡ row_weighed s links.now grants.now m r }
{
    let t = m.tally;
    let Some(pair) = question_of(s, r) else {
        return Weighed {
            outcome: decide(s, links, grants, r, false),
            note: as_is(t),
        };
    };
    let leaves = Leaves {
        links: LinkList::new(links, s.links),
        grants: LinkList::new(grants, s.grants),
    };
    let verdict = memory::ask(t, m.place, pair, leaves, s.lineage, s.caller.principal);
    Weighed {
        outcome: decide(s, links, grants, r, verdict.yes),
        note: verdict.note,
    }
}

// The whole of it: 1, 2, 3 and 4 in order, then the row. It changes nothing.
#[tactic(auto, unfolding(crate::specs::Step::outcome_by))]
fn consider<'a>(
    s: Sight,
    m: Recalled,
    links: &'a [u32],
    grants: &'a [u32],
    frame: &'a [u8],
) -> Weighed
    ensures { result ≡ weighed_by s links.now grants.now m frame.now }
{
    if !well_formed(frame) {
        return stopped(m, Refusal::Malformed);
    }
    let r = request_of(frame);
    match check(s, byte_at(frame, 1), r) {
        Ok(()) => follow_row(s, m, links, grants, r),
        Err(x) => stopped(m, x),
    }
}

// Refused before anything is asked.
fn stopped(m: Recalled, x: Refusal) -> Weighed
    ensures { result ≡ record { outcome = refused x; note = as_is m.tally } }
{
    let t = m.tally;
    let outcome = refused(x);
    let note = as_is(t);
    Weighed { outcome, note }
}

fn removes(c: ListChange) -> bool
    ensures { result ≡ removes c }
{
    match c {
        ListChange::Keep => false,
        ListChange::Append(_) => false,
        ListChange::Remove(_) => true,
    }
}

// "A removal that takes out a link empties the memory; additions do not."
fn notes(o: Outcome, n: Note) -> Note
    ensures { result ≡ notes o n }
{
    let links = o.links;
    let grants = o.grants;
    if removes(links) | removes(grants) {
        return wiped(n);
    }
    n
}

// What is written into the tables: the rows that change, and the counts of links follow their lists. The caller has
// the number n and the row `own`.
fn writes_of(s: Sight, own: ThreadRow, n: usize, o: Outcome) -> Writes
    requires { RowFits s.principals s.tags n own o.rows × (ListFits o.links s.links × ListFits o.grants s.grants) }
    ensures { result ≡ writes_of s own n o }
{
    let of_links = o.links;
    let of_grants = o.grants;
    let of_rows = o.rows;
    let counts = Counts {
        principals: s.principals,
        links: count_after(of_links, s.links),
        tags: s.tags,
        grants: count_after(of_grants, s.grants),
    };
    row_writes(n, own, counts, of_rows)
}

// A request that sees s: its answer and its change of the store are made, and what is to be written into the lists
// and the state is told. The answer comes first, because a message that is taken from its queue is read from the
// store.
pub fn act<'a>(
    s: Sight,
    own: ThreadRow,
    m: Recalled,
    links: &'a [u32],
    grants: &'a [u32],
    store: &mut [u8],
    frame: &'a [u8],
    answer: &mut [u8],
) -> Acted
    requires { HasRoom (counts_in s) own store.old frame.now (weighed_by s links.now grants.now m frame.now).outcome × (34 ≤ length answer.old) }
    ensures value { result ≡ acted s own m links.now grants.now store.old frame.now }
    ensures store_after { store.new ≡ apply_store (weighed_by s links.now grants.now m frame.now).outcome.store frame.now store.old }
    ensures answer_after { answer.new ≡ front (answer_bytes frame.now store.old (weighed_by s links.now grants.now m frame.now).outcome.answer) answer.old }
{
    let c = consider(s, m, links, grants, frame);
    let o = c.outcome;
    let a = o.answer;
    let status = status_of(a);
    let written = length_of(a, frame, store);
    write(a, frame, store, answer);
    let of_store = o.store;
    apply_store(of_store, frame, store);
    let writes = writes_of(s, own, byte_at(frame, 0) as usize, o);
    let asked = c.note;
    let note = notes(o, asked);
    let of_links = o.links;
    let of_grants = o.grants;
    Acted {
        status,
        written,
        links: of_links,
        grants: of_grants,
        writes,
        note,
    }
}
