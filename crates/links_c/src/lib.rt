// The links as C functions, for the benchmark and the comparison with the second program: numbers pass
// as themselves, a list as a pointer and a length. Each is the function of `links` or `link_rules` of the same name.
#![tactic(auto)]

ghost use Rattle.std.specs.Prelude.{◌≡◌};
ghost use Rattle.links.specs.declared.lists.Graph.TheVariants.{Principals, OfTag};
ghost use Rattle.links.specs.declared.authority.Lineage.TheVariants.{Supertag, Subtag};
ghost use Rattle.links.specs.Links.{links_in};
ghost use Rattle.links.specs.Authority.{acts_for, authoritative};
ghost use Rattle.links.specs.Cycles.{closes_cycle};
ghost use Rattle.link_rules.specs.LinkRules.{links_hold};

use links::{Graph, Leaves, Lineage, LinkList, Rooted};
use numbers::{Principal, Tag};

#[unsafe(no_mangle)]
pub extern "C" fn links_acts_for(links: &[u32], n: usize, p: u8, q: u8) -> bool
    ensures { result ≡ acts_for (links_in links.now n Principals) (record { 0 = p }) (record { 0 = q }) }
{
    LinkList::new(links, n).acts_for(Principal(p), Principal(q))
}

#[unsafe(no_mangle)]
pub extern "C" fn links_closes_cycle(links: &[u32], n: usize, t: u8, p: u8, q: u8) -> bool
    ensures { result ≡ closes_cycle (links_in links.now n (OfTag (record { 0 = t }))) (record { 0 = p }) (record { 0 = q }) }
{
    LinkList::new(links, n).closes_cycle(Graph::OfTag(Tag(t)), Principal(p), Principal(q))
}

// A supertag t of the maker r.
#[unsafe(no_mangle)]
pub extern "C" fn links_authoritative(
    links: &[u32],
    n: usize,
    tags: &[u32],
    m: usize,
    t: u8,
    r: u8,
    p: u8,
) -> bool
    ensures { result ≡ authoritative (links_in links.now n Principals) tags.now m (Supertag (record { tag = record { 0 = t }; root = record { 0 = r } })) (record { 0 = p }) }
{
    let leaves = Leaves {
        links: LinkList::new(links, n),
        grants: LinkList::new(tags, m),
    };
    let own = Rooted {
        tag: Tag(t),
        root: Principal(r),
    };
    leaves.authoritative(Lineage::Supertag(own), Principal(p))
}

// A subtag t of the maker r, of the supertag u of the maker s.
#[unsafe(no_mangle)]
pub extern "C" fn links_authoritative_sub(
    links: &[u32],
    n: usize,
    tags: &[u32],
    m: usize,
    t: u8,
    r: u8,
    u: u8,
    s: u8,
    p: u8,
) -> bool
    ensures { result ≡ authoritative (links_in links.now n Principals) tags.now m (Subtag (record { tag = record { 0 = t }; root = record { 0 = r } }) (record { tag = record { 0 = u }; root = record { 0 = s } })) (record { 0 = p }) }
{
    let leaves = Leaves {
        links: LinkList::new(links, n),
        grants: LinkList::new(tags, m),
    };
    let own = Rooted {
        tag: Tag(t),
        root: Principal(r),
    };
    let above = Rooted {
        tag: Tag(u),
        root: Principal(s),
    };
    leaves.authoritative(Lineage::Subtag(own, above), Principal(p))
}

#[unsafe(no_mangle)]
pub extern "C" fn links_principal_links_hold(links: &[u32], n: usize, principals: u32) -> bool
    ensures { result ≡ links_hold links.now n 1 principals }
{
    link_rules::principal_links_hold(links, n, principals)
}

#[unsafe(no_mangle)]
pub extern "C" fn links_tag_links_hold(links: &[u32], n: usize, tags: u32, principals: u32) -> bool
    ensures { result ≡ links_hold links.now n tags principals }
{
    link_rules::tag_links_hold(links, n, tags, principals)
}
