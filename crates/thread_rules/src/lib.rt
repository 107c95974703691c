// The rules of 9 that speak of the rows of threads (01, "Refusal numbers"): limits, made numbers and unused
// places, tested in one pass.
#![tactic(auto)]

ghost use Rattle.std.specs.Prelude.{◌≡◌, ◌≤◌};
ghost use Rattle.thread_rules.specs.ThreadRules.{aside_made, aside_unused, is_no_thread, thread_holds, threads_hold};

use numbers::{PUBLIC, PUT_ASIDE, Principal};
use tables::fields::{is_flag, labels_empty, labels_made};
use tables::rows::ThreadRow;
use tables::says::is_live;

// "An unmade number": the first n put aside are made.
fn aside_made(aside: &[Principal; 8], n: usize, principals: u32) -> bool
    requires { n ≤ 8 }
    ensures { result ≡ aside_made principals aside.now n }
{
    aside[..n].iter().all(|p| (p.0 as u32) < principals)
}

// "Nonzero unused place": those after the first n are zero.
fn aside_unused(aside: &[Principal; 8], n: usize) -> bool
    ensures { result ≡ aside_unused aside.now n }
{
    aside.iter().skip(n).all(|p| p.0 == PUBLIC)
}

// The row of a thread that is not live is zero.
fn is_no_thread(row: &ThreadRow) -> bool
    ensures { result ≡ is_no_thread row.now }
{
    let unused = aside_unused(&row.aside, 0);
    (row.principal.0 == PUBLIC) & (labels_empty(row.labels) & ((row.calls == 0) & unused))
}

// One row of a thread obeys them all.
#[tactic(auto, unfolding(crate::specs::ThreadRules::thread_holds))]
fn thread_holds(row: &ThreadRow, principals: u32, tags: u32) -> bool
    ensures { result ≡ thread_holds principals tags row.now }
{
    if !is_flag(row.live) {
        return false;
    }
    if !is_live(row.live) {
        return is_no_thread(row);
    }
    let calls = row.calls;
    if PUT_ASIDE < calls {
        return false;
    }
    let made = aside_made(&row.aside, calls, principals);
    let unused = aside_unused(&row.aside, calls);
    (((row.principal.0 as u32) < principals) & (labels_made(row.labels, tags) & made)) & unused
}

pub fn threads_hold(rows: &[ThreadRow; 16], principals: u32, tags: u32) -> bool
    ensures { result ≡ threads_hold principals tags rows.now }
{
    rows.iter().all(|row| thread_holds(row, principals, tags))
}
