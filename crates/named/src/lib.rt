// Refusal 3 (01, "Refusal numbers"): "an operand names no principal, tag or object, an object of another kind, a
// subtag in 06, or a label with an unmade tag".
#![tactic(auto)]

ghost use Rattle.std.specs.Prelude.{◌≡◌};
ghost use Rattle.named.specs.Named.{
  principal_made,
  tag_made,
  is_supertag,
  is_cell,
  is_queue,
  is_lock,
  authority_named,
  thread_named,
  object_fits,
  named,
};

use frames::requests::{AuthorityRequest, ObjectRequest, Request, ThreadRequest};
use links::Lineage;
use numbers::{Principal, Tag};
use sight::Sight;
use tables::rows::What;
use tables::says::{is_free, what_of};

fn principal_made(s: Sight, p: Principal) -> bool
    ensures { result ≡ principal_made s p }
{
    (p.0 as u32) < s.principals
}

fn tag_made(s: Sight, t: Tag) -> bool
    ensures { result ≡ tag_made s t }
{
    (t.0 as u32) < s.tags
}

fn is_supertag(l: Lineage) -> bool
    ensures { result ≡ is_supertag l }
{
    matches!(l, Lineage::Supertag(_))
}

fn is_cell(what: What) -> bool
    ensures { result ≡ is_cell what }
{
    matches!(what, What::Cell)
}

fn is_queue(what: What) -> bool
    ensures { result ≡ is_queue what }
{
    matches!(what, What::Queue(_))
}

fn is_lock(what: What) -> bool
    ensures { result ≡ is_lock what }
{
    matches!(what, What::Lock(_))
}

// 01 to 09 name only what is made; 06 names a supertag.
fn authority_named(s: Sight, r: AuthorityRequest) -> bool
    ensures { result ≡ authority_named s r }
{
    match r {
        AuthorityRequest::NewPrincipal | AuthorityRequest::NewTag => true,
        AuthorityRequest::Delegate(p, q)
        | AuthorityRequest::Revoke(p, q)
        | AuthorityRequest::ActsFor(p, q) => principal_made(s, p) & principal_made(s, q),
        AuthorityRequest::NewSubtag(t) => tag_made(s, t) & is_supertag(s.lineage),
        AuthorityRequest::Grant(t, p, q) | AuthorityRequest::Ungrant(t, p, q) => {
            tag_made(s, t) & (principal_made(s, p) & principal_made(s, q))
        }
        AuthorityRequest::Authoritative(t) => tag_made(s, t),
    }
}

// 0A to 11
fn thread_named(s: Sight, r: ThreadRequest) -> bool
    ensures { result ≡ thread_named s r }
{
    match r {
        ThreadRequest::IntoSecrecy(t)
        | ThreadRequest::OutOfSecrecy(t)
        | ThreadRequest::IntoIntegrity(t)
        | ThreadRequest::OutOfIntegrity(t) => tag_made(s, t),
        ThreadRequest::Fork(p) | ThreadRequest::Call(p) => principal_made(s, p),
        ThreadRequest::End | ThreadRequest::Return => true,
    }
}

// 12 to 19: the labels' tags are made, and the object is of the kind.
fn object_fits(s: Sight, r: ObjectRequest) -> bool
    ensures { result ≡ object_fits s r }
{
    let what = what_of(s.object);
    let tags = s.tags as usize;
    match r {
        ObjectRequest::New(_, l) => l.secrecy.names_only_made(tags)
            & l.integrity.names_only_made(tags),
        ObjectRequest::Delete(_) => !is_free(what),
        ObjectRequest::ReadCell(_) | ObjectRequest::WriteCell(_, _) => is_cell(what),
        ObjectRequest::Put(_, _) | ObjectRequest::Get(_) => is_queue(what),
        ObjectRequest::Lock(_) | ObjectRequest::Unlock(_) => is_lock(what),
    }
}

// Not refused 3.
pub fn is_named(s: Sight, r: Request) -> bool
    ensures { result ≡ named s r }
{
    match r {
        Request::OfAuthority(a) => authority_named(s, a),
        Request::OfThread(a) => thread_named(s, a),
        Request::OfObject(a) => object_fits(s, a),
        Request::OfOutside(_) => true,
    }
}
