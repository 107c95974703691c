// Kinds 01 to 09: new principals and tags, who acts for whom, leaves given and withdrawn. Each function tests
// what its row of 01 refuses, in the row's order.
#![tactic(auto)]

ghost use Rattle.std.specs.Prelude.{◌≡◌};
ghost use Rattle.decide_authority.specs.Authority.{
  is_public,
  own_of,
  removal,
  caller_acts_for,
  counted,
  new_principal,
  delegate,
  revoke,
  tells_acts_for,
  told_bool,
  tag_if_room,
  new_tag,
  new_subtag,
  grant,
  ungrant,
  decide_authority,
};

use answers::{Answer, Refusal};
use frames::requests::AuthorityRequest;
use links::{Graph, Lineage, LinkList, Rooted};
use numbers::{LINKS, PRINCIPALS, PUBLIC, Principal, TAGS, Tag};
use outcomes::{
    ListChange, Outcome, RowChange, done, grants_changed, links_changed, refused, rows_changed,
    told,
};
use sight::Sight;
use tables::rows::Rank;
use tables::says::tag_row_of;

fn own_of(l: Lineage) -> Rooted
    ensures { result ≡ own_of l }
{
    match l {
        Lineage::Supertag(t) | Lineage::Subtag(t, _) => t,
    }
}

// "Caller .. acts for P."
pub fn caller_acts_for(s: Sight, links: &[u32], p: Principal) -> bool
    ensures { result ≡ caller_acts_for s links.now p }
{
    LinkList::new(links, s.links).acts_for(s.caller.principal, p)
}

// "A counted node of T's own graph".
fn is_counted(s: Sight, grants: &[u32], p: Principal) -> bool
    ensures { result ≡ counted s grants.now p }
{
    LinkList::new(grants, s.grants).counted_node(own_of(s.lineage), p)
}

fn is_public(p: Principal) -> bool
    ensures { result ≡ is_public p }
{
    p.0 == PUBLIC
}

fn caller_is_public(s: Sight) -> bool
    ensures { result ≡ is_public s.caller.principal }
{
    is_public(s.caller.principal)
}

// 01
#[tactic(auto, unfolding(crate::specs::Authority::new_principal))]
fn new_principal(s: Sight) -> Outcome
    ensures { result ≡ new_principal s }
{
    if caller_is_public(s) {
        return refused(Refusal::Authority);
    }
    let n = s.principals as usize;
    if PRINCIPALS <= n {
        return refused(Refusal::Full);
    }
    if LINKS <= s.links {
        return refused(Refusal::Full);
    }
    let number = n as u8;
    Outcome {
        links: ListChange::Append(links::principal_link(Principal(number), s.caller.principal)),
        ..rows_changed(Answer::Value(number), RowChange::NewPrincipal)
    }
}

// 02
#[tactic(auto, unfolding(crate::specs::Authority::delegate))]
fn decide_delegate(s: Sight, links: &[u32], p: Principal, q: Principal) -> Outcome
    ensures { result ≡ delegate s links.now p q }
{
    if !caller_acts_for(s, links, p) {
        return refused(Refusal::Authority);
    }
    if is_public(q) {
        return refused(Refusal::Authority);
    }
    let x = links::principal_link(p, q);
    let list = LinkList::new(links, s.links);
    if list.stands(x) {
        return done();
    }
    if list.closes_cycle(Graph::Principals, p, q) {
        return refused(Refusal::Cycle);
    }
    if LINKS <= s.links {
        return refused(Refusal::Full);
    }
    links_changed(ListChange::Append(x))
}

// "link removed", or none there
fn removal(place: Option<usize>) -> ListChange
    ensures { result ≡ removal place }
{
    match place {
        Some(i) => ListChange::Remove(i),
        None => ListChange::Keep,
    }
}

// 03
#[tactic(auto, unfolding(crate::specs::Authority::revoke))]
fn decide_revoke(s: Sight, links: &[u32], p: Principal, q: Principal) -> Outcome
    ensures { result ≡ revoke s links.now p q }
{
    if !caller_acts_for(s, links, p) {
        return refused(Refusal::Authority);
    }
    let place = LinkList::new(links, s.links).find(links::principal_link(p, q));
    links_changed(removal(place))
}

// 04
#[tactic(auto, unfolding(crate::specs::Authority::tells_acts_for))]
fn tell_acts_for(s: Sight, links: &[u32], p: Principal, q: Principal) -> Outcome
    ensures { result ≡ tells_acts_for s links.now p q }
{
    tell(LinkList::new(links, s.links).acts_for(p, q))
}

// 01 or 00
fn tell(b: bool) -> Outcome
    ensures { result ≡ told_bool b }
{
    told(u8::from(b))
}

// 05
#[tactic(auto, unfolding(crate::specs::Authority::new_tag))]
fn new_tag(s: Sight) -> Outcome
    ensures { result ≡ new_tag s }
{
    if caller_is_public(s) {
        return refused(Refusal::Authority);
    }
    add_tag(s, Rank::Supertag)
}

// 06
#[tactic(auto, unfolding(crate::specs::Authority::new_subtag))]
fn new_subtag(s: Sight, t: Tag, allowed: bool) -> Outcome
    ensures { result ≡ new_subtag s t allowed }
{
    if !allowed {
        return refused(Refusal::Authority);
    }
    add_tag(s, Rank::SubtagOf(t))
}

// "64 tags 7", else the next number and the caller as its maker
#[tactic(auto, unfolding(crate::specs::Authority::tag_if_room))]
fn add_tag(s: Sight, rank: Rank) -> Outcome
    ensures { result ≡ tag_if_room s rank }
{
    let n = s.tags as usize;
    if TAGS <= n {
        return refused(Refusal::Full);
    }
    let row = tag_row_of(s.caller.principal, rank);
    rows_changed(Answer::Value(n as u8), RowChange::NewTag(row))
}

// 07
#[tactic(auto, unfolding(crate::specs::Authority::grant))]
fn decide_grant<'a>(
    s: Sight,
    links: &'a [u32],
    grants: &'a [u32],
    t: Tag,
    p: Principal,
    q: Principal,
) -> Outcome
    ensures { result ≡ grant s links.now grants.now t p q }
{
    if !caller_acts_for(s, links, p) {
        return refused(Refusal::Authority);
    }
    if !is_counted(s, grants, p) {
        return refused(Refusal::Authority);
    }
    if is_public(q) {
        return refused(Refusal::Authority);
    }
    let x = links::tag_link(t, p, q);
    let list = LinkList::new(grants, s.grants);
    if list.stands(x) {
        return done();
    }
    if list.closes_cycle(Graph::OfTag(t), p, q) {
        return refused(Refusal::Cycle);
    }
    if LINKS <= s.grants {
        return refused(Refusal::Full);
    }
    grants_changed(ListChange::Append(x))
}

// 08
#[tactic(auto, unfolding(crate::specs::Authority::ungrant))]
fn decide_ungrant<'a>(
    s: Sight,
    links: &'a [u32],
    grants: &'a [u32],
    t: Tag,
    p: Principal,
    q: Principal,
) -> Outcome
    ensures { result ≡ ungrant s links.now grants.now t p q }
{
    if !caller_acts_for(s, links, p) {
        return refused(Refusal::Authority);
    }
    let place = LinkList::new(grants, s.grants).find(links::tag_link(t, p, q));
    grants_changed(removal(place))
}

pub fn decide_authority<'a>(
    s: Sight,
    links: &'a [u32],
    grants: &'a [u32],
    r: AuthorityRequest,
    allowed: bool,
) -> Outcome
    ensures { result ≡ decide_authority s links.now grants.now r allowed }
{
    match r {
        AuthorityRequest::NewPrincipal => new_principal(s),
        AuthorityRequest::Delegate(p, q) => decide_delegate(s, links, p, q),
        AuthorityRequest::Revoke(p, q) => decide_revoke(s, links, p, q),
        AuthorityRequest::ActsFor(p, q) => tell_acts_for(s, links, p, q),
        AuthorityRequest::NewTag => new_tag(s),
        AuthorityRequest::NewSubtag(t) => new_subtag(s, t, allowed),
        AuthorityRequest::Grant(t, p, q) => decide_grant(s, links, grants, t, p, q),
        AuthorityRequest::Ungrant(t, p, q) => decide_ungrant(s, links, grants, t, p, q),
        AuthorityRequest::Authoritative(_) => tell(allowed),
    }
}
