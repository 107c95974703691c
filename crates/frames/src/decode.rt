// A frame read as a request: "A frame is thread byte, kind byte, operands." A frame of any length is read; a
// byte past its end is read as 0, and refusal 1 tells the frames in which that happens.
ghost use Rattle.std.specs.Prelude.{◌≡◌, ◌≤◌};
ghost use Rattle.frames.specs.Requests.{
  kind_of_object,
  authority_request,
  thread_request,
  object_request,
  outside_request,
  byte_at,
  label_at,
  labels_at,
  message_at,
  request_by,
  request_of,
};

use crate::requests::{
    AuthorityRequest, ObjectKind, ObjectRequest, OutsideRequest, Request, Span, ThreadRequest,
};
use numbers::{Label, LabelPair, Object, Principal, Tag};

pub fn byte_at(frame: &[u8], i: usize) -> u8
    ensures { result ≡ byte_at frame.now i }
{
    frame.get(i).copied().unwrap_or(0)
}

// "Labels are 8 bytes, most significant first."
fn label_at(frame: &[u8], i: usize) -> Label
    requires { i ≤ 32 }
    ensures { result ≡ label_at frame.now i }
{
    Label::from_bytes([
        byte_at(frame, i),
        byte_at(frame, i + 1),
        byte_at(frame, i + 2),
        byte_at(frame, i + 3),
        byte_at(frame, i + 4),
        byte_at(frame, i + 5),
        byte_at(frame, i + 6),
        byte_at(frame, i + 7),
    ])
}

fn labels_at(frame: &[u8], i: usize) -> LabelPair
    requires { i ≤ 16 }
    ensures { result ≡ labels_at frame.now i }
{
    LabelPair {
        secrecy: label_at(frame, i),
        integrity: label_at(frame, i + 8),
    }
}

// "A message operand is a length byte and that many bytes."
fn message_at(frame: &[u8], i: usize) -> Span
    requires { i ≤ 32 }
    ensures { result ≡ message_at frame.now i }
{
    Span {
        at: i + 1,
        len: byte_at(frame, i) as usize,
    }
}

// "0 cell, 1 queue, 2 lock"; another is refused before.
impl From<u8> for ObjectKind {
    fn from(k: u8) -> ObjectKind
        ensures { result ≡ kind_of_object k }
    {
        match k {
            0 => ObjectKind::Cell,
            1 => ObjectKind::Queue,
            _ => ObjectKind::Lock,
        }
    }
}

// 01 to 09, with the operands' bytes. "P, Q, T, O are one byte."
#[tactic(auto, unfolding(crate::specs::Requests::authority_request))]
fn authority_request(kind: u8, a: u8, b: u8, c: u8) -> AuthorityRequest
    ensures { result ≡ authority_request kind a b c }
{
    match kind {
        0x01 => AuthorityRequest::NewPrincipal,
        0x02 => AuthorityRequest::Delegate(Principal(a), Principal(b)),
        0x03 => AuthorityRequest::Revoke(Principal(a), Principal(b)),
        0x04 => AuthorityRequest::ActsFor(Principal(a), Principal(b)),
        0x05 => AuthorityRequest::NewTag,
        0x06 => AuthorityRequest::NewSubtag(Tag(a)),
        0x07 => AuthorityRequest::Grant(Tag(a), Principal(b), Principal(c)),
        0x08 => AuthorityRequest::Ungrant(Tag(a), Principal(b), Principal(c)),
        _ => AuthorityRequest::Authoritative(Tag(a)),
    }
}

// 0A to 11
#[tactic(auto, unfolding(crate::specs::Requests::thread_request))]
fn thread_request(kind: u8, a: u8) -> ThreadRequest
    ensures { result ≡ thread_request kind a }
{
    match kind {
        0x0A => ThreadRequest::IntoSecrecy(Tag(a)),
        0x0B => ThreadRequest::OutOfSecrecy(Tag(a)),
        0x0C => ThreadRequest::IntoIntegrity(Tag(a)),
        0x0D => ThreadRequest::OutOfIntegrity(Tag(a)),
        0x0E => ThreadRequest::Fork(Principal(a)),
        0x0F => ThreadRequest::End,
        0x10 => ThreadRequest::Call(Principal(a)),
        _ => ThreadRequest::Return,
    }
}

// 13 to 19
#[tactic(auto, unfolding(crate::specs::Requests::object_request))]
fn object_request(kind: u8, a: u8, message: Span) -> ObjectRequest
    ensures { result ≡ object_request kind a message }
{
    match kind {
        0x13 => ObjectRequest::Delete(Object(a)),
        0x14 => ObjectRequest::ReadCell(Object(a)),
        0x15 => ObjectRequest::WriteCell(Object(a), message),
        0x16 => ObjectRequest::Put(Object(a), message),
        0x17 => ObjectRequest::Get(Object(a)),
        0x18 => ObjectRequest::Lock(Object(a)),
        _ => ObjectRequest::Unlock(Object(a)),
    }
}

// 1A and 1B
#[tactic(auto, unfolding(crate::specs::Requests::outside_request))]
fn outside_request(kind: u8, message: Span) -> OutsideRequest
    ensures { result ≡ outside_request kind message }
{
    match kind {
        0x1A => OutsideRequest::SendOut(message),
        _ => OutsideRequest::BringIn(message),
    }
}

// What a frame says whose kind byte and first operand are these.
#[tactic(auto, unfolding(crate::specs::Requests::request_by))]
fn request_by(frame: &[u8], kind: u8, a: u8) -> Request
    ensures { result ≡ request_by frame.now kind a }
{
    if kind < 0x0A {
        return Request::OfAuthority(authority_request(
            kind,
            a,
            byte_at(frame, 3),
            byte_at(frame, 4),
        ));
    }
    if kind < 0x12 {
        return Request::OfThread(thread_request(kind, a));
    }
    if kind < 0x13 {
        return Request::OfObject(ObjectRequest::New(ObjectKind::from(a), labels_at(frame, 3)));
    }
    if kind < 0x1A {
        return Request::OfObject(object_request(kind, a, message_at(frame, 3)));
    }
    Request::OfOutside(outside_request(kind, message_at(frame, 2)))
}

// The request of a frame that is not refused 1.
pub fn request_of(frame: &[u8]) -> Request
    ensures { result ≡ request_of frame.now }
{
    request_by(frame, byte_at(frame, 1), byte_at(frame, 2))
}
