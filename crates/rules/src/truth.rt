// The truth of remembered pairs: each is one for which the walk answers yes.
ghost use Rattle.std.specs.Prelude.{◌≡◌};
ghost use Rattle.memory.specs.Remembered.{Fits};
ghost use Rattle.rules.specs.Tested.{pair_true, pairs_true};

use links::{Leaves, LinkList};
use memory::Memory;
use numbers::{Principal, Tag};
use tables::Tables;
use tables::lineage::lineage;
use tables::rows::TagRow;

// The pair's principal is authoritative for its tag.
fn pair_true(kinds: &[TagRow; 64], leaves: Leaves<'_>, x: u32) -> bool
    ensures { result ≡ pair_true kinds.now leaves.entry.links.places.now leaves.entry.links.used leaves.entry.grants.places.now leaves.entry.grants.used x }
{
    let p = Principal((x / 256 % 256) as u8);
    let tag = lineage(kinds, Tag((x % 256) as u8));
    leaves.authoritative(tag, p)
}

// "A remembered pair .. untrue": none of those held is.
pub fn pairs_true(t: &Tables, m: &Memory, links: &[u32], grants: &[u32]) -> bool
    requires { Fits m.now }
    ensures { result ≡ pairs_true t.now m.now links.now grants.now }
{
    let leaves = Leaves {
        links: LinkList::new(links, t.links),
        grants: LinkList::new(grants, t.grants),
    };
    m.pairs[..m.held]
        .iter()
        .all(|x| pair_true(&t.kinds, leaves, *x))
}
