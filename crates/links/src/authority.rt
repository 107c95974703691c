// "Who may do what" (01): who acts for whom, who is a counted node of a tag, who is authoritative for it.
ghost use Rattle.std.specs.Prelude.{◌≡◌};
ghost use Rattle.links.specs.declared.lists.Graph.TheVariants.{Principals};
ghost use Rattle.links.specs.Links.{links_in};
ghost use Rattle.links.specs.Authority.{acts_for, counted_node, links_of, acts_for_some, authoritative};

use crate::lists::{Graph, LinkList};
use crate::walk::has;
use numbers::{Principal, Tag};

// A tag and "a root principal, its maker".
#[derive(Clone, Copy)]
pub struct Rooted {
    pub tag: Tag,
    pub root: Principal,
}

// A tag is "a supertag or a subtag of one supertag", which then stands second.
#[derive(Clone, Copy)]
pub enum Lineage {
    Supertag(Rooted),
    Subtag(Rooted, Rooted),
}

// Both lists, as they are lent: who acts for whom, and the leaves of the tags.
#[derive(Clone, Copy)]
pub struct Leaves<'a> {
    pub links: LinkList<'a>,
    pub grants: LinkList<'a>,
}

impl LinkList<'_> {
    // "P acts for Q when a path of zero or more principal links leads from Q to P."
    pub fn acts_for(self, p: Principal, q: Principal) -> bool
        ensures { result ≡ acts_for (links_in self.entry.places.now self.entry.used Principals) p q }
    {
        self.leads(Graph::Principals, q, p)
    }

    // "P is a counted node of a tag when a path of zero or more of that tag's links leads there from its root."
    pub fn counted_node(self, t: Rooted, p: Principal) -> bool
        ensures { result ≡ counted_node (links_of self.entry.places.now self.entry.used t) t.root p }
    {
        self.leads(Graph::OfTag(t.tag), t.root, p)
    }
}

impl Leaves<'_> {
    // "P acts for some counted node of it": one walk from the root, and one from the whole set of counted nodes.
    fn acts_for_some(self, t: Rooted, p: Principal) -> bool
        ensures { result ≡ acts_for_some (links_in self.entry.links.places.now self.entry.links.used Principals) (links_of self.entry.grants.places.now self.entry.grants.used t) t.root p }
    {
        let nodes = self.grants.led_to(Graph::OfTag(t.tag), t.root);
        has(self.links.led_to_from(Graph::Principals, nodes), p)
    }

    // "P is authoritative for a tag when P acts for some counted node of it, or, for a subtag, of its supertag."
    pub fn authoritative(self, x: Lineage, p: Principal) -> bool
        ensures { result ≡ authoritative (links_in self.entry.links.places.now self.entry.links.used Principals) self.entry.grants.places.now self.entry.grants.used x p }
    {
        match x {
            Lineage::Supertag(t) => self.acts_for_some(t, p),
            Lineage::Subtag(t, above) => self.acts_for_some(t, p) || self.acts_for_some(above, p),
        }
    }
}
