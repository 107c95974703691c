// Which tag and which object a request names, and whether it makes a thread or an object.
ghost use Rattle.std.specs.Prelude.{◌≡◌};
ghost use Rattle.sight.specs.Sight.{authority_tag, thread_tag, tag_named, object_of, object_named, forks, makes_object};

use frames::requests::{AuthorityRequest, ObjectRequest, Request, ThreadRequest};
use numbers::{Object, Tag, Thread};

// A number that names nothing.
const NOTHING: u8 = 255;

fn authority_tag(r: AuthorityRequest) -> Tag
    ensures { result ≡ authority_tag r }
{
    match r {
        AuthorityRequest::NewSubtag(t)
        | AuthorityRequest::Grant(t, _, _)
        | AuthorityRequest::Ungrant(t, _, _)
        | AuthorityRequest::Authoritative(t) => t,
        _ => Tag(NOTHING),
    }
}

fn thread_tag(r: ThreadRequest) -> Tag
    ensures { result ≡ thread_tag r }
{
    match r {
        ThreadRequest::IntoSecrecy(t)
        | ThreadRequest::OutOfSecrecy(t)
        | ThreadRequest::IntoIntegrity(t)
        | ThreadRequest::OutOfIntegrity(t) => t,
        _ => Tag(NOTHING),
    }
}

pub fn tag_named(r: Request) -> Tag
    ensures { result ≡ tag_named r }
{
    match r {
        Request::OfAuthority(a) => authority_tag(a),
        Request::OfThread(a) => thread_tag(a),
        _ => Tag(NOTHING),
    }
}

fn object_of(r: ObjectRequest) -> Object
    ensures { result ≡ object_of r }
{
    match r {
        ObjectRequest::New(_, _) => Object(NOTHING),
        ObjectRequest::Delete(o)
        | ObjectRequest::ReadCell(o)
        | ObjectRequest::WriteCell(o, _)
        | ObjectRequest::Put(o, _)
        | ObjectRequest::Get(o)
        | ObjectRequest::Lock(o)
        | ObjectRequest::Unlock(o) => o,
    }
}

fn object_named(r: Request) -> Object
    ensures { result ≡ object_named r }
{
    match r {
        Request::OfObject(a) => object_of(a),
        _ => Object(NOTHING),
    }
}

// The numbers at which the tables are read: of the thread that asks ..
pub fn thread_number(n: Thread) -> usize
    ensures { result ≡ n.0 }
{
    n.0 as usize
}

// .. of the tag that a request names, and of its object; a request that names none has a number past the last.
pub fn tag_number(r: Request) -> usize
    ensures { result ≡ (tag_named r).0 }
{
    tag_named(r).0 as usize
}

pub fn object_number(r: Request) -> usize
    ensures { result ≡ (object_named r).0 }
{
    object_named(r).0 as usize
}

pub fn forks(r: Request) -> bool
    ensures { result ≡ forks r }
{
    matches!(r, Request::OfThread(ThreadRequest::Fork(_)))
}

pub fn makes_object(r: Request) -> bool
    ensures { result ≡ makes_object r }
{
    matches!(r, Request::OfObject(ObjectRequest::New(_, _)))
}
