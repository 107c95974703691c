// Kinds 0A to 11: labels, forks and calls. Each function tests what its row of 01 refuses, in the row's order.
#![tactic(auto)]

ghost use Rattle.std.specs.Prelude.{◌≡◌};
ghost use Rattle.decide_threads.specs.Threads.{with_labels, out_of_secrecy, into_integrity, returned, fork, call, decide_thread};

use answers::{Answer, Refusal};
use decide_authority::caller_acts_for;
use frames::requests::ThreadRequest;
use numbers::{Label, LabelPair, PUT_ASIDE, Principal, THREADS, Tag};
use outcomes::{Outcome, RowChange, done, refused, rows_changed};
use sight::Sight;

fn with_labels(secrecy: Label, integrity: Label) -> Outcome
    ensures { result ≡ with_labels secrecy integrity }
{
    rows_changed(
        Answer::Done,
        RowChange::Labels(LabelPair { secrecy, integrity }),
    )
}

// 0B, with the labels S and I of the caller
#[tactic(auto, unfolding(crate::specs::Threads::out_of_secrecy))]
fn out_of_secrecy(own: LabelPair, t: Tag, allowed: bool) -> Outcome
    ensures { result ≡ out_of_secrecy own t allowed }
{
    if !own.secrecy.has(t) {
        return done();
    }
    if !allowed {
        return refused(Refusal::Authority);
    }
    with_labels(own.secrecy.without(t), own.integrity)
}

// 0C
#[tactic(auto, unfolding(crate::specs::Threads::into_integrity))]
fn into_integrity(own: LabelPair, t: Tag, allowed: bool) -> Outcome
    ensures { result ≡ into_integrity own t allowed }
{
    if own.integrity.has(t) {
        return done();
    }
    if !allowed {
        return refused(Refusal::Authority);
    }
    with_labels(own.secrecy, own.integrity.with(t))
}

// 11
#[tactic(auto, unfolding(crate::specs::Threads::returned))]
fn return_back(calls: usize) -> Outcome
    ensures { result ≡ returned calls }
{
    if calls < 1 {
        return refused(Refusal::Empty);
    }
    rows_changed(Answer::Done, RowChange::Return)
}

// 0E
#[tactic(auto, unfolding(crate::specs::Threads::fork))]
fn decide_fork(s: Sight, links: &[u32], p: Principal) -> Outcome
    ensures { result ≡ fork s links.now p }
{
    if !caller_acts_for(s, links, p) {
        return refused(Refusal::Authority);
    }
    // A number past the table is none.
    match s.free {
        Some(n) if usize::from(n) < THREADS => {
            rows_changed(Answer::Value(n), RowChange::NewThread(usize::from(n), p))
        }
        _ => refused(Refusal::Full),
    }
}

// 10
#[tactic(auto, unfolding(crate::specs::Threads::call))]
fn decide_call(s: Sight, links: &[u32], p: Principal) -> Outcome
    ensures { result ≡ call s links.now p }
{
    if !caller_acts_for(s, links, p) {
        return refused(Refusal::Authority);
    }
    if PUT_ASIDE <= s.caller.calls {
        return refused(Refusal::Full);
    }
    rows_changed(Answer::Done, RowChange::Call(p))
}

pub fn decide_thread(s: Sight, links: &[u32], r: ThreadRequest, allowed: bool) -> Outcome
    ensures { result ≡ decide_thread s links.now r allowed }
{
    let own = s.caller.labels;
    match r {
        ThreadRequest::IntoSecrecy(t) => with_labels(own.secrecy.with(t), own.integrity),
        ThreadRequest::OutOfSecrecy(t) => out_of_secrecy(own, t, allowed),
        ThreadRequest::IntoIntegrity(t) => into_integrity(own, t, allowed),
        ThreadRequest::OutOfIntegrity(t) => with_labels(own.secrecy, own.integrity.without(t)),
        ThreadRequest::Fork(p) => decide_fork(s, links, p),
        ThreadRequest::End => rows_changed(Answer::Done, RowChange::End),
        ThreadRequest::Call(p) => decide_call(s, links, p),
        ThreadRequest::Return => return_back(s.caller.calls),
    }
}
