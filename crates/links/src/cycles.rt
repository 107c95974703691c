// Cycles: what a new link would close, and whether a whole list has one.
ghost use Rattle.std.specs.Prelude.{◌≡◌};
ghost use Rattle.links.specs.Links.{links_in};
ghost use Rattle.links.specs.Cycles.{closes_cycle};

use crate::lists::{Graph, LinkList};
use numbers::Principal;

impl LinkList<'_> {
    // A new link from p to q would close a cycle. For a tag it goes by the recorded path, counted or not.
    pub fn closes_cycle(self, g: Graph, p: Principal, q: Principal) -> bool
        ensures { result ≡ closes_cycle (links_in self.entry.places.now self.entry.used g) p q }
    {
        self.leads(g, q, p)
    }
}
