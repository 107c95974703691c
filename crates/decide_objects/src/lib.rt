// Kinds 12 to 1B: objects and their messages, and what goes out and comes in. Each function tests what its row
// of 01 refuses, in the row's order.
#![tactic(auto)]

ghost use Rattle.std.specs.Prelude.{◌≡◌};
ghost use Rattle.decide_objects.specs.Objects.{
  object_changed,
  empty_of,
  held,
  now_is,
  new_object,
  put,
  get,
  lock,
  decide_object,
  decide_outside,
};

use answers::{Answer, Refusal};
use frames::requests::{ObjectKind, ObjectRequest, OutsideRequest, Span};
use numbers::{LabelPair, OBJECTS, Object, QUEUED};
use outcomes::{Outcome, RowChange, StoreChange, refused, rows_changed};
use sight::Sight;
use store::place_at;
use tables::rows::{What, no_object};
use tables::says::{held_in, is_locked, object_row_of, what_of};

// The store and the rows change, and neither list does.
fn object_changed(answer: Answer, store: StoreChange, rows: RowChange) -> Outcome
    ensures { result ≡ object_changed answer store rows }
{
    Outcome {
        store,
        ..rows_changed(answer, rows)
    }
}

// "empty or unlocked"
fn empty_of(k: ObjectKind) -> What
    ensures { result ≡ empty_of k }
{
    match k {
        ObjectKind::Cell => What::Cell,
        ObjectKind::Queue => What::Queue(0),
        ObjectKind::Lock => What::Lock(false),
    }
}

// The object's row, with its labels as they are.
fn now_is(s: Sight, o: Object, what: What) -> RowChange
    ensures { result ≡ now_is s o what }
{
    RowChange::Object(o.0 as usize, object_row_of(what, s.object.labels))
}

// 12
#[tactic(auto, unfolding(crate::specs::Objects::new_object))]
fn new_object(s: Sight, k: ObjectKind, labels: LabelPair) -> Outcome
    ensures { result ≡ new_object s k labels }
{
    // A number past the table is none.
    match s.free {
        Some(n) if usize::from(n) < OBJECTS => {
            let row = object_row_of(empty_of(k), labels);
            rows_changed(Answer::Value(n), RowChange::Object(usize::from(n), row))
        }
        _ => refused(Refusal::Full),
    }
}

fn held_of(s: Sight) -> usize
    ensures { result ≡ held s }
{
    held_in(what_of(s.object))
}

// 16
#[tactic(auto, unfolding(crate::specs::Objects::put))]
fn decide_put(s: Sight, o: Object, m: Span) -> Outcome
    ensures { result ≡ put s o m }
{
    let held = held_of(s);
    if QUEUED <= held {
        return refused(Refusal::Full);
    }
    let at = place_at(o, held);
    object_changed(
        Answer::Done,
        StoreChange::Put(at, m),
        now_is(s, o, What::Queue(held + 1)),
    )
}

// 17
#[tactic(auto, unfolding(crate::specs::Objects::get))]
fn decide_get(s: Sight, o: Object) -> Outcome
    ensures { result ≡ get s o }
{
    let held = held_of(s);
    if held < 1 {
        return refused(Refusal::Empty);
    }
    let at = place_at(o, 0);
    object_changed(
        Answer::Kept(at),
        StoreChange::TakeFirst(at),
        now_is(s, o, What::Queue(held - 1)),
    )
}

// 18
#[tactic(auto, unfolding(crate::specs::Objects::lock))]
fn decide_lock(s: Sight, o: Object) -> Outcome
    ensures { result ≡ lock s o }
{
    if is_locked(what_of(s.object)) {
        return refused(Refusal::Empty);
    }
    rows_changed(Answer::Done, now_is(s, o, What::Lock(true)))
}

pub fn decide_object(s: Sight, r: ObjectRequest) -> Outcome
    ensures { result ≡ decide_object s r }
{
    match r {
        ObjectRequest::New(k, l) => new_object(s, k, l),
        ObjectRequest::Delete(o) => object_changed(
            Answer::Done,
            StoreChange::Free(place_at(o, 0)),
            RowChange::Object(o.0 as usize, no_object()),
        ),
        ObjectRequest::ReadCell(o) => rows_changed(Answer::Kept(place_at(o, 0)), RowChange::Keep),
        ObjectRequest::WriteCell(o, m) => {
            object_changed(
                Answer::Done,
                StoreChange::Put(place_at(o, 0), m),
                RowChange::Keep,
            )
        }
        ObjectRequest::Put(o, m) => decide_put(s, o, m),
        ObjectRequest::Get(o) => decide_get(s, o),
        ObjectRequest::Lock(o) => decide_lock(s, o),
        ObjectRequest::Unlock(o) => rows_changed(Answer::Done, now_is(s, o, What::Lock(false))),
    }
}

pub fn decide_outside(r: OutsideRequest) -> Outcome
    ensures { result ≡ decide_outside r }
{
    match r {
        OutsideRequest::SendOut(m) | OutsideRequest::BringIn(m) => {
            rows_changed(Answer::Given(m), RowChange::Keep)
        }
    }
}
