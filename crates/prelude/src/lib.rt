// Refusals 2, 3 and 4 (01, "Refusal numbers"), in this order and before those of a kind's own row; and whether
// a request asks for authority.
#![tactic(auto)]

ghost use Rattle.std.specs.Prelude.{◌≡◌};
ghost use Rattle.prelude.specs.Prelude.{prelude, authority_asks, thread_asks, asks};

use answers::Refusal;
use flows::may_flow;
use frames::requests::{AuthorityRequest, Request, ThreadRequest};
use named::is_named;
use sight::Sight;

// No refusal, or one.
#[tactic(auto, unfolding(crate::specs::Prelude::prelude))]
pub fn check(s: Sight, kind: u8, r: Request) -> Result<(), Refusal>
    ensures { result ≡ prelude s kind r }
{
    if !s.caller.live {
        return Err(Refusal::NotLive);
    }
    if !is_named(s, r) {
        return Err(Refusal::Unnamed);
    }
    if !may_flow(s, kind, r) {
        return Err(Refusal::Flow);
    }
    Ok(())
}

fn authority_asks(r: AuthorityRequest) -> bool
    ensures { result ≡ authority_asks r }
{
    matches!(
        r,
        AuthorityRequest::NewSubtag(_) | AuthorityRequest::Authoritative(_)
    )
}

// 0B asks where T is in S, 0C where it is not in I.
fn thread_asks(s: Sight, r: ThreadRequest) -> bool
    ensures { result ≡ thread_asks s r }
{
    let own = s.caller.labels;
    match r {
        ThreadRequest::OutOfSecrecy(t) => own.secrecy.has(t),
        ThreadRequest::IntoIntegrity(t) => !own.integrity.has(t),
        _ => false,
    }
}

// "A question .. is asked by 06, 09, 0B and 0C, once, when the authority check is reached."
pub fn asks_authority(s: Sight, r: Request) -> bool
    ensures { result ≡ asks s r }
{
    match r {
        Request::OfAuthority(a) => authority_asks(a),
        Request::OfThread(a) => thread_asks(s, a),
        _ => false,
    }
}
