// What a request sees of the tables before the links are asked: who asks, with which labels, how much room
// there is, and the tag and the object that it names. The memory is not among it.
// On it stand the refusals 2, 3 and 4, and whether a request asks for authority (crates `named`, `flows` and
// `prelude`).
#![tactic(auto)]

mod names;

ghost use Rattle.std.specs.Prelude.{◌≡◌};
ghost use Rattle.sight.specs.Sight.{tag_named, object_named, caller_in, forks, makes_object, free_for, sight_of, seen_in};

use crate::names::{forks, makes_object, object_number, tag_number, thread_number};
use frames::requests::Request;
use lent::{Counts, counts_of, object_at, sized, tag_at, thread_at};
use links::Lineage;
pub use names::tag_named;
use numbers::{LabelPair, Principal, Thread};
use state::State;
use tables::free::{free_object, free_thread};
use tables::lineage::{lineage_in, supertag_of};
use tables::rows::{ObjectRow, TagRow, ThreadRow};
use tables::says::is_live;

// The thread that asks, and who it runs as.
#[derive(Clone, Copy)]
pub struct Caller {
    pub live: bool,
    pub principal: Principal,
    pub labels: LabelPair,
    pub calls: usize,
}

#[derive(Clone, Copy)]
pub struct Sight {
    pub caller: Caller,
    pub principals: u32,
    pub tags: u32,
    pub links: usize,
    pub grants: usize,
    pub lineage: Lineage,
    pub object: ObjectRow,
    pub free: Option<u8>,
}

fn caller_in(row: ThreadRow) -> Caller
    ensures { result ≡ caller_in row }
{
    Caller {
        live: is_live(row.live),
        principal: row.principal,
        labels: row.labels,
        calls: row.calls,
    }
}

// The number that a new thread or object would take, if one is free. Only for these is a whole table looked through.
fn free_for(s: &State, r: Request) -> Option<u8>
    ensures { result ≡ free_for s.now.tables r }
{
    sized(s);
    if forks(r) {
        let n = free_thread(&s.tables.threads)?;
        return Some(n as u8);
    }
    if makes_object(r) {
        let n = free_object(&s.tables.objects)?;
        return Some(n as u8);
    }
    None
}

// What a request sees where these rows were read for it: its thread's, its tag's, the one of that tag's supertag,
// and its object's.
fn seen(
    r: Request,
    row: ThreadRow,
    tag: TagRow,
    above: TagRow,
    object: ObjectRow,
    counts: Counts,
    free: Option<u8>,
) -> Sight
    ensures { result ≡ seen_in r row tag above object counts free }
{
    Sight {
        caller: caller_in(row),
        principals: counts.principals,
        tags: counts.tags,
        links: counts.links,
        grants: counts.grants,
        lineage: lineage_in(tag_named(r), tag, above),
        object,
        free,
    }
}

// It is read row by row, where the state lies.
pub fn sight_of(s: &State, n: Thread, r: Request) -> Sight
    ensures { result ≡ sight_of s.now.tables n r }
{
    let row = thread_at(s, thread_number(n));
    let tag = tag_at(s, tag_number(r));
    let above = tag_at(s, supertag_of(tag));
    let object = object_at(s, object_number(r));
    let counts = counts_of(s);
    let free = free_for(s, r);
    seen(r, row, tag, above, object, counts, free)
}
