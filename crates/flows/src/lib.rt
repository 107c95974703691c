// Refusal 4 (01, "Refusal numbers"): "the flow need is not met"; and what 12, 13 and 1B test more.
#![tactic(auto)]

ghost use Rattle.std.specs.Prelude.{◌≡◌};
ghost use Rattle.flows.specs.Flows.{object_more, outside_more, more, flows};

use frames::requests::{ObjectRequest, OutsideRequest, Request};
use needs::need_of;
use sight::Sight;

// What 12 and 13 test more: "i within I", "I = i".
fn object_more(s: Sight, r: ObjectRequest) -> bool
    ensures { result ≡ object_more s r }
{
    let own = s.caller.labels;
    let labels = s.object.labels;
    match r {
        ObjectRequest::New(_, l) => l.integrity.within(own.integrity),
        ObjectRequest::Delete(_) => own.integrity == labels.integrity,
        _ => true,
    }
}

// What 1B tests more: "I empty".
fn outside_more(s: Sight, r: OutsideRequest) -> bool
    ensures { result ≡ outside_more s r }
{
    match r {
        OutsideRequest::SendOut(_) => true,
        OutsideRequest::BringIn(_) => s.caller.labels.integrity.is_empty(),
    }
}

fn tests_more(s: Sight, r: Request) -> bool
    ensures { result ≡ more s r }
{
    match r {
        Request::OfObject(a) => object_more(s, a),
        Request::OfOutside(a) => outside_more(s, a),
        _ => true,
    }
}

// Not refused 4: the need is looked up by kind.
pub fn may_flow(s: Sight, kind: u8, r: Request) -> bool
    ensures { result ≡ flows s kind r }
{
    let own = s.caller.labels;
    own.meets(need_of(kind), s.object.labels) & tests_more(s, r)
}
