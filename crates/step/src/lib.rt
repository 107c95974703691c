// One request on a state that lies behind a reference: what it sees is read there, `act` says what becomes of it, and
// what changes is written back. It is defined for all tables that break no rule but the truth of remembered pairs:
// there a held pair is a yes whatever the links say.
//
// The lists of links are only read: what changes in them is told, and whoever holds them changes them.
#![tactic(auto)]

ghost use Rattle.std.specs.Prelude.{◌≡◌, true, ◌≤◌, length};
ghost use Rattle.memory.specs.Notes.{noted};
ghost use Rattle.rules.specs.Tested.{hold_but_truth};
ghost use Rattle.apply.specs.Writes.{rows_after, written};
ghost use Rattle.act.specs.Step.{stepped};
ghost use Rattle.act.specs.Act.{recall_of};
ghost use Rattle.step.specs.Look.{seen_of, step_of};

use act::{Recalled, act, asking_of, question_of};
use apply::rows::{RowWrite, Writes};
use frames::requests::Request;
use lent::{note, place_of, put_counts, put_object, put_tag, put_thread, sized, tally, thread_at};
use memory::Note;
use outcomes::ListChange;
use sight::{Sight, sight_of};
use state::State;
use tables::rows::ThreadRow;

// What a request gives beside the lent buffers: its number or 0, how many bytes of the answer buffer were written,
// and what is to change in the lists of links.
#[derive(Clone, Copy)]
pub struct Stepped {
    pub status: u8,
    pub written: usize,
    pub links: ListChange,
    pub grants: ListChange,
}

// What a request knows of the memory: only where it asks for authority are the pairs that are held looked through.
fn recall(s: &State, sight: Sight, r: Request) -> Recalled
    ensures { result ≡ recall_of s.now.memory sight r }
{
    let tally = tally(s);
    let place = question_of(sight, r).and_then(|pair| place_of(s, tally.held, pair));
    Recalled { tally, place }
}

// What a request reads of the state.
#[derive(Clone, Copy)]
struct Seen {
    pub sight: Sight,
    pub own: ThreadRow,
    pub recalled: Recalled,
}

fn look(s: &State, frame: &[u8]) -> Seen
    ensures { result ≡ seen_of s.now frame.now }
{
    let a = asking_of(frame);
    let sight = sight_of(s, a.thread, a.request);
    let own = thread_at(s, a.row);
    let recalled = recall(s, sight, a.request);
    Seen {
        sight,
        own,
        recalled,
    }
}

// The row that a request writes into the tables.
fn write_row(s: &mut State, row: RowWrite)
    ensures { s.new ≡ record { tables = rows_after s.old.tables row; memory = s.old.memory } }
{
    match row {
        RowWrite::Keep => (),
        RowWrite::Thread(n, row) => put_thread(s, n, row),
        RowWrite::Tag(n, row) => put_tag(s, n, row),
        RowWrite::Object(n, row) => put_object(s, n, row),
    }
}

// What a request writes into it: at most one row, the counts, and what its question left.
fn write_all(s: &mut State, w: Writes, n: Note)
    ensures { s.new ≡ record { tables = written s.old.tables w; memory = noted s.old.memory n } }
{
    write_row(s, w.row);
    put_counts(s, w.counts);
    note(s, n);
}

// One request, on a state that lies behind a reference: no table is copied.
pub fn step(
    s: &mut State,
    links: &[u32],
    grants: &[u32],
    store: &mut [u8],
    frame: &[u8],
    answer: &mut [u8],
) -> Stepped
    requires { (hold_but_truth s.old.tables s.old.memory links.now grants.now store.old ≡ true) × (34 ≤ length answer.old) }
    ensures value { result ≡ step_of s.old links.now grants.now store.old frame.now answer.old }
    ensures s_after { s.new ≡ (stepped s.old links.now grants.now store.old frame.now answer.old).replied.state }
    ensures store_after { store.new ≡ (stepped s.old links.now grants.now store.old frame.now answer.old).store }
    ensures answer_after { answer.new ≡ (stepped s.old links.now grants.now store.old frame.now answer.old).answer }
{
    sized(s);
    let seen = look(s, frame);
    let acted = act(
        seen.sight,
        seen.own,
        seen.recalled,
        links,
        grants,
        store,
        frame,
        answer,
    );
    write_all(s, acted.writes, acted.note);
    Stepped {
        status: acted.status,
        written: acted.written,
        links: acted.links,
        grants: acted.grants,
    }
}
