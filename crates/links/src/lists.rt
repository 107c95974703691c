// The lent lists. A principal link (P, Q) is the number P * 256 + Q, and a link (T, P, Q) of a tag is
// (T * 256 + P) * 256 + Q.
ghost use Rattle.std.specs.Prelude.{◌≡◌, ◌*◌, min, take};
ghost use Rattle.links.specs.Links.{base_of, link_number, find_in, stands};

use numbers::{Principal, Tag};

// Which links of a list are meant: the list's own, where it is that of the principal links, or those of
// one tag.
#[derive(Clone, Copy)]
pub enum Graph {
    Principals,
    OfTag(Tag),
}

// Where the numbers of a graph's links start.
pub fn base_of(g: Graph) -> u32
    ensures { result ≡ base_of g }
{
    match g {
        Graph::Principals => 0,
        Graph::OfTag(t) => u32::from(t.0) * 256,
    }
}

// How many places of a list are in use, where the count may lie.
pub fn used(places: usize, count: usize) -> usize
    ensures { result ≡ min count places }
{
    count.min(places)
}

// The number of a principal link.
pub fn principal_link(p: Principal, q: Principal) -> u32
    ensures { result ≡ link_number 0 p q }
{
    u32::from(p.0) * 256 + u32::from(q.0)
}

// The number of a link of a tag.
pub fn tag_link(t: Tag, p: Principal, q: Principal) -> u32
    ensures { result ≡ link_number (t.0 * 256) p q }
{
    (u32::from(t.0) * 256 + u32::from(p.0)) * 256 + u32::from(q.0)
}

// A lent list of links, of which the first `used` places are in use; the count may lie.
#[derive(Clone, Copy)]
pub struct LinkList<'a> {
    pub places: &'a [u32],
    pub used: usize,
}

impl<'a> LinkList<'a> {
    pub fn new(places: &'a [u32], used: usize) -> LinkList<'a>
        ensures { (result.places ≡ places.entry) × (result.used ≡ used) }
    {
        LinkList { places, used }
    }

    // Where a link stands among the places in use.
    pub fn find(self, x: u32) -> Option<usize>
        ensures { result ≡ find_in (take self.entry.used self.entry.places.now) x }
    {
        self.places.iter().take(self.used).position(|l| *l == x)
    }

    // Whether it stands among them.
    pub fn stands(self, x: u32) -> bool
        ensures { result ≡ stands self.entry.places.now self.entry.used x }
    {
        self.find(x).is_some()
    }
}
