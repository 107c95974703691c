// What a request that passed 2, 3 and 4 comes to: refusals 5 to 8, or what is done (01, "Requests"). It reads
// what the request sees, the two lists of links, and the yes or no to the question of authority; the memory is
// not among it. It changes nothing.
#![tactic(auto)]

ghost use Rattle.std.specs.Prelude.{◌≡◌};
ghost use Rattle.decide.specs.Decide.{decide};

use decide_authority::decide_authority;
use decide_objects::{decide_object, decide_outside};
use decide_threads::decide_thread;
use frames::requests::Request;
use outcomes::Outcome;
use sight::Sight;

pub fn decide<'a>(
    s: Sight,
    links: &'a [u32],
    grants: &'a [u32],
    r: Request,
    allowed: bool,
) -> Outcome
    ensures { result ≡ decide s links.now grants.now r allowed }
{
    match r {
        Request::OfAuthority(a) => decide_authority(s, links, grants, a, allowed),
        Request::OfThread(a) => decide_thread(s, links, a, allowed),
        Request::OfObject(a) => decide_object(s, a),
        Request::OfOutside(a) => decide_outside(a),
    }
}
