// The rules of 9 that speak of the rows of objects (01, "Refusal numbers"): limits, made labels and unused
// places, tested in one pass.
#![tactic(auto)]

ghost use Rattle.std.specs.Prelude.{◌≡◌};
ghost use Rattle.object_rules.specs.ObjectRules.{what_in_limits, object_numbers_in_limits, numbers_unused, what_labels, object_holds, objects_hold};

use numbers::{LOCK, LabelPair, QUEUED};
use tables::fields::{is_flag, labels_empty, labels_made};
use tables::rows::{ObjectRow, What};
use tables::says::{is_free, is_live, what_of};

// "A limit": a queue holds at most 8.
fn what_in_limits(what: What) -> bool
    ensures { result ≡ what_in_limits what }
{
    match what {
        What::Queue(held) => held <= QUEUED,
        _ => true,
    }
}

// "A limit": the flags, and the kind of an object in use.
fn numbers_in_limits(row: &ObjectRow) -> bool
    ensures { result ≡ object_numbers_in_limits row.now }
{
    let used = is_flag(row.locked) & (row.kind <= LOCK);
    is_flag(row.live) & (!is_live(row.live) | used)
}

// "Nonzero unused place": what belongs to another kind of object is zero.
fn numbers_unused(what: What, row: &ObjectRow) -> bool
    ensures { result ≡ numbers_unused what row.now }
{
    match what {
        What::Free => (row.kind == 0) & ((row.held == 0) & (row.locked == 0)),
        What::Cell => (row.held == 0) & (row.locked == 0),
        What::Queue(_) => row.locked == 0,
        What::Lock(_) => row.held == 0,
    }
}

// The labels of an object in use are made, and those of a free one are empty.
fn labels_hold(what: What, labels: LabelPair, tags: u32) -> bool
    ensures { result ≡ what_labels tags what labels }
{
    if is_free(what) {
        labels_empty(labels)
    } else {
        labels_made(labels, tags)
    }
}

// One row of an object obeys them all.
#[tactic(auto, unfolding(crate::specs::ObjectRules::object_holds))]
fn object_holds(row: &ObjectRow, tags: u32) -> bool
    ensures { result ≡ object_holds tags row.now }
{
    let what = what_of(*row);
    let limits = numbers_in_limits(row) & what_in_limits(what);
    let unused = numbers_unused(what, row);
    limits & (unused & labels_hold(what, row.labels, tags))
}

pub fn objects_hold(rows: &[ObjectRow; 64], tags: u32) -> bool
    ensures { result ≡ objects_hold tags rows.now }
{
    rows.iter().all(|row| object_holds(row, tags))
}
