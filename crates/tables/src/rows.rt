// The rows of the tables, each of plain numbers, so that a host can declare them and any bytes are a row; what a
// row can say (`Rank`, `What`); and the row of nothing. What a row says is read in `says`.
ghost use Rattle.std.specs.Prelude.{◌≡◌};
ghost use Rattle.tables.specs.Things.{no_labels, no_thread, office_thread, no_tag, no_object};

use numbers::{Label, LabelPair, OFFICE, PUBLIC, Principal, Tag};

// "Each has a principal, a secrecy label, an integrity label, and up to 8 principals put aside by calls":
// the first `calls` of them, the last one put aside last. `live` is 1, or 0.
#[repr(C)]
#[derive(Clone, Copy, PartialEq, Eq)]
pub struct ThreadRow {
    pub live: u8,
    pub principal: Principal,
    pub labels: LabelPair,
    pub calls: usize,
    pub aside: [Principal; 8],
}

// "each a supertag or a subtag of one supertag"
#[derive(Clone, Copy, PartialEq, Eq)]
pub enum Rank {
    Supertag,
    SubtagOf(Tag),
}

// "Each tag has a root principal, its maker." `subtag` is 1 for a subtag of `supertag`, or 0.
#[repr(C)]
#[derive(Clone, Copy, PartialEq, Eq)]
pub struct TagRow {
    pub root: Principal,
    pub subtag: u8,
    pub supertag: Tag,
}

// What an object number stands for: with how many messages a queue holds, and whether a lock is held.
#[derive(Clone, Copy, PartialEq, Eq)]
pub enum What {
    Free,
    Cell,
    Queue(usize),
    Lock(bool),
}

// "of kind 0 cell, 1 queue, 2 lock, each with two fixed labels". `live` is 1, or 0 for a number that is free; a
// queue holds `held` messages; `locked` is 1 for a lock that is held, or 0.
#[repr(C)]
#[derive(Clone, Copy, PartialEq, Eq)]
pub struct ObjectRow {
    pub live: u8,
    pub kind: u8,
    pub held: usize,
    pub locked: u8,
    pub labels: LabelPair,
}

fn no_labels() -> LabelPair
    ensures { result ≡ no_labels }
{
    LabelPair {
        secrecy: Label(0),
        integrity: Label(0),
    }
}

// A thread that is not live.
pub fn no_thread() -> ThreadRow
    ensures { result ≡ no_thread }
{
    let nobody = Principal(PUBLIC);
    ThreadRow {
        live: 0,
        principal: nobody,
        labels: no_labels(),
        calls: 0,
        aside: [nobody; 8],
    }
}

// "thread 0 live, principal 1, empty labels"
pub fn office_thread() -> ThreadRow
    ensures { result ≡ office_thread }
{
    ThreadRow {
        live: 1,
        principal: Principal(OFFICE),
        labels: no_labels(),
        calls: 0,
        aside: [Principal(PUBLIC); 8],
    }
}

// A tag that is not made.
pub fn no_tag() -> TagRow
    ensures { result ≡ no_tag }
{
    TagRow {
        root: Principal(PUBLIC),
        subtag: 0,
        supertag: Tag(0),
    }
}

// An object number that is free.
pub fn no_object() -> ObjectRow
    ensures { result ≡ no_object }
{
    ObjectRow {
        live: 0,
        kind: 0,
        held: 0,
        locked: 0,
        labels: no_labels(),
    }
}
