// The walk: "The walk puts two questions, each resting on the other: of a principal, which links leave
// it; of a link, what is reached from its far end. A principal met twice is walked once."
//
// The links of one graph are first gathered into rows of bits, so that the first question is one number:
// bit q of row p is the link from p to q. One walk serves both lists: the links that leave p in a graph
// are those whose number, but for the far end, is the graph's base and p.
ghost use Rattle.std.specs.Prelude.{◌≡◌, false, [], ◌+◌, ◌^◌, ◌≤◌, ◌<◌, length, take};
ghost use Rattle.numbers.specs.Sets.{contains};
ghost use Rattle.links.specs.Paths.{leads};
ghost use Rattle.links.specs.Links.{is_link_of, links_from, links_in};
ghost use Rattle.links.specs.Walk.{Rows, Met, led_to, led_to_from};

use crate::lists::{Graph, LinkList, base_of, used};
use numbers::Principal;

// A number is that of a link of the graph with this base, and both ends name principals.
fn is_link_of(base: u32, l: u32) -> bool
    requires { base + 64 < 4294967296 }
    ensures { result ≡ is_link_of base l }
{
    let near = l / 256;
    (base <= near) & ((near < base + 64) & (l % 256 < 64))
}

// Gathers those of the links that are of the graph with this base into empty rows.
fn gather(links: &[u32], base: u32, rows: &mut [u64; 64])
    requires base_low { base + 64 < 4294967296 }
    requires rows { Rows [] rows.old }
    ensures { Rows (links_from base links.now) rows.new }
{
    for l in links {
        if is_link_of(base, *l) {
            let p = (l / 256 - base) as usize;
            rows[p] |= 1 << (l % 256);
        }
    }
}

// Adds to `seen` the principal p, not met before, and what is reached from it.
#[cycle(visit_visit_each)]
fn visit(rows: &[u64; 64], p: u32, seen: u64) -> u64
    requires { (p < 64) × (contains seen p ≡ false) }
    ensures { Met rows.now (2 ^ p) seen result }
{
    visit_each(rows, rows[p as usize], seen | (1 << p))
}

// Adds to `seen` each principal of a set, such as the far ends of the links that leave one, and what is
// reached from it.
#[cycle(visit_visit_each)]
fn visit_each(rows: &[u64; 64], set: u64, seen: u64) -> u64
    ensures { Met rows.now set seen result }
{
    let mut s = seen;
    let mut rest = set & !s;
    while 0 < rest {
        s = visit(rows, rest.trailing_zeros(), s);
        rest = set & !s;
    }
    s
}

impl LinkList<'_> {
    // What paths of the graph's links lead to from some principal of a set.
    pub(crate) fn led_to_from(self, g: Graph, starts: u64) -> u64
        ensures { result ≡ led_to_from (links_in self.entry.places.now self.entry.used g) starts }
    {
        let mut rows = [0u64; 64];
        let in_use = used(self.places.len(), self.used);
        gather(&self.places[..in_use], base_of(g), &mut rows);
        visit_each(&rows, starts, 0)
    }

    // What they lead to from p.
    pub(crate) fn led_to(self, g: Graph, p: Principal) -> u64
        ensures { result ≡ led_to (links_in self.entry.places.now self.entry.used g) p.0 }
    {
        if 64 <= p.0 {
            return 0;
        }
        self.led_to_from(g, 1 << p.0)
    }

    // A path of the graph's links leads from p to q.
    pub fn leads(self, g: Graph, p: Principal, q: Principal) -> bool
        ensures { result ≡ leads (links_in self.entry.places.now self.entry.used g) p.0 q.0 }
    {
        p == q || has(self.led_to(g, p), q)
    }
}

// A principal is in a set of principals.
pub fn has(s: u64, p: Principal) -> bool
    ensures { result ≡ contains s p.0 }
{
    p.0 < 64 && (s >> p.0) & 1 == 1
}
