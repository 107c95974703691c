// The rules of 9 (01, "Refusal numbers") on any tables at all. The truth of remembered pairs stands apart,
// because the step behind the check is defined without it.
#![tactic(auto)]

mod truth;

ghost use Rattle.std.specs.Prelude.{◌≡◌, ℕ, ◌≤◌, ◌<◌};
ghost use Rattle.tables.specs.Rows.{what_of};
ghost use Rattle.tables.specs.Things.{object_at};
ghost use Rattle.store_rules.specs.StoreRules.{places_used};
ghost use Rattle.rules.specs.Tested.{lists_hold, rows_hold, messages_hold, hold_but_truth, break_no_rule};

use crate::truth::pairs_true;
use link_rules::{principal_links_hold, tag_links_hold};
use memory::Memory;
use memory_rules::memory_holds;
use numbers::LINKS;
use object_rules::objects_hold;
use store::{STORE, zeros};
use store_rules::store_holds;
use tables::Tables;
use tables::rows::ObjectRow;
use tag_rules::tags_hold;
use thread_rules::threads_hold;

// Both lists of links, their unused places, and "under 2 principals".
fn lists_hold<'a>(
    links: &'a [u32],
    n: usize,
    grants: &'a [u32],
    k: usize,
    tags: u32,
    principals: u32,
) -> bool
    ensures { result ≡ lists_hold links.now n grants.now k tags principals }
{
    principal_links_hold(links, n, principals)
        && tag_links_hold(grants, k, tags, principals)
        && 2 <= principals
        && zeros(links, n, LINKS - n)
        && zeros(grants, k, LINKS - k)
}

// The rows of tags, threads and objects.
fn rows_hold(t: &Tables) -> bool
    ensures { result ≡ rows_hold t.now.kinds t.now.threads t.now.objects t.now.tags t.now.principals }
{
    tags_hold(&t.kinds, t.tags, t.principals)
        && threads_hold(&t.threads, t.principals, t.tags)
        && objects_hold(&t.objects, t.tags)
}

// The store of messages, and its length.
fn messages_hold(store: &[u8], objects: &[ObjectRow; 64]) -> bool
    requires { (o : ℕ) → o < 64 → places_used (what_of (object_at objects.now o)) ≤ 8 }
    ensures { result ≡ messages_hold store.now objects.now }
{
    store.len() == STORE && store_holds(store, objects)
}

// All tables, however they are: they break no rule but perhaps the truth of remembered pairs.
pub fn hold_but_truth(t: &Tables, m: &Memory, links: &[u32], grants: &[u32], store: &[u8]) -> bool
    ensures { result ≡ hold_but_truth t.now m.now links.now grants.now store.now }
{
    lists_hold(links, t.links, grants, t.grants, t.tags, t.principals)
        && rows_hold(t)
        && messages_hold(store, &t.objects)
        && memory_holds(m, t.tags, t.principals)
}

// All tables, however they are: they break no rule.
pub fn break_no_rule(t: &Tables, m: &Memory, links: &[u32], grants: &[u32], store: &[u8]) -> bool
    ensures { result ≡ break_no_rule t.now m.now links.now grants.now store.now }
{
    hold_but_truth(t, m, links, grants, store) && pairs_true(t, m, links, grants)
}
