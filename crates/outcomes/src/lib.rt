// What a request comes to: its answer, and what changes in each list, in the store and in the rows. Nothing is
// changed here; `apply` does that. A refusal changes nothing.
#![tactic(auto)]

ghost use Rattle.std.specs.Prelude.{◌≡◌};
ghost use Rattle.outcomes.specs.Outcomes.{refused, done, told, rows_changed, links_changed, grants_changed};

use answers::{Answer, Refusal};
use frames::requests::Span;
use numbers::{LabelPair, Principal};
use tables::rows::{ObjectRow, TagRow};

// A lent list gets a link more, or loses the one at a place.
#[derive(Clone, Copy, PartialEq, Eq)]
pub enum ListChange {
    Keep,
    Append(u32),
    Remove(usize),
}

// A message is put at a place, an object's first is taken, or all its places are freed. Places are given by
// where they begin.
#[derive(Clone, Copy, PartialEq, Eq)]
pub enum StoreChange {
    Keep,
    Put(usize, Span),
    TakeFirst(usize),
    Free(usize),
}

// One row changes, or one is new. Where none is named, it is the caller's own.
#[derive(Clone, Copy, PartialEq, Eq)]
pub enum RowChange {
    Keep,
    NewPrincipal,
    NewTag(TagRow),
    Labels(LabelPair),
    NewThread(usize, Principal),
    End,
    Call(Principal),
    Return,
    Object(usize, ObjectRow),
}

#[derive(Clone, Copy, PartialEq, Eq)]
pub struct Outcome {
    pub answer: Answer,
    pub links: ListChange,
    pub grants: ListChange,
    pub store: StoreChange,
    pub rows: RowChange,
}

// Done, and nothing changes.
pub fn done() -> Outcome
    ensures { result ≡ done }
{
    Outcome {
        answer: Answer::Done,
        links: ListChange::Keep,
        grants: ListChange::Keep,
        store: StoreChange::Keep,
        rows: RowChange::Keep,
    }
}

pub fn refused(r: Refusal) -> Outcome
    ensures { result ≡ refused r }
{
    Outcome {
        answer: Answer::Refused(r),
        ..done()
    }
}

// A yes or no, or a number; nothing changes.
pub fn told(v: u8) -> Outcome
    ensures { result ≡ told v }
{
    Outcome {
        answer: Answer::Value(v),
        ..done()
    }
}

// Done, with this answer; the rows change so, and nothing else does.
pub fn rows_changed(answer: Answer, rows: RowChange) -> Outcome
    ensures { result ≡ rows_changed answer rows }
{
    Outcome {
        answer,
        rows,
        ..done()
    }
}

// Done; the list of principal links changes.
pub fn links_changed(c: ListChange) -> Outcome
    ensures { result ≡ links_changed c }
{
    Outcome { links: c, ..done() }
}

// Done; the list of tag links changes.
pub fn grants_changed(c: ListChange) -> Outcome
    ensures { result ≡ grants_changed c }
{
    Outcome {
        grants: c,
        ..done()
    }
}
