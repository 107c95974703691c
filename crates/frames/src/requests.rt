// Requests (01, "Requests"), in four groups. The four kinds of number are kept apart by their types; a
// message is its place and length in the frame.
use numbers::{LabelPair, Object, Principal, Tag};

// Where a message stands in its frame.
#[derive(Clone, Copy, PartialEq, Eq)]
pub struct Span {
    pub at: usize,
    pub len: usize,
}

// "of kind 0 cell, 1 queue, 2 lock"
#[derive(Clone, Copy, PartialEq, Eq)]
pub enum ObjectKind {
    Cell,
    Queue,
    Lock,
}

// 01 to 09
#[derive(Clone, Copy, PartialEq, Eq)]
pub enum AuthorityRequest {
    NewPrincipal,
    Delegate(Principal, Principal),
    Revoke(Principal, Principal),
    ActsFor(Principal, Principal),
    NewTag,
    NewSubtag(Tag),
    Grant(Tag, Principal, Principal),
    Ungrant(Tag, Principal, Principal),
    Authoritative(Tag),
}

// 0A to 11
#[derive(Clone, Copy, PartialEq, Eq)]
pub enum ThreadRequest {
    IntoSecrecy(Tag),
    OutOfSecrecy(Tag),
    IntoIntegrity(Tag),
    OutOfIntegrity(Tag),
    Fork(Principal),
    End,
    Call(Principal),
    Return,
}

// 12 to 19
#[derive(Clone, Copy, PartialEq, Eq)]
pub enum ObjectRequest {
    New(ObjectKind, LabelPair),
    Delete(Object),
    ReadCell(Object),
    WriteCell(Object, Span),
    Put(Object, Span),
    Get(Object),
    Lock(Object),
    Unlock(Object),
}

// 1A and 1B
#[derive(Clone, Copy, PartialEq, Eq)]
pub enum OutsideRequest {
    SendOut(Span),
    BringIn(Span),
}

#[derive(Clone, Copy, PartialEq, Eq)]
pub enum Request {
    OfAuthority(AuthorityRequest),
    OfThread(ThreadRequest),
    OfObject(ObjectRequest),
    OfOutside(OutsideRequest),
}
