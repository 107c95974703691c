// Whole lists: the rules of 9 that speak of links, each tested in one pass. Doubled links and cycles
// are found through rows of bits, 64 rows a tag.
ghost use Rattle.std.specs.Prelude.{◌≡◌, ◌&&◌, ℕ, ◌*◌, ◌≤◌, ◌<◌, length, get_or};
ghost use Rattle.numbers.specs.Below.{all_below};
ghost use Rattle.links.specs.Cycles.{no_cycle};
ghost use Rattle.link_rules.specs.Rows.{row_links, Leaving};
ghost use Rattle.link_rules.specs.LinkRules.{in_limits, all_made, none_to_public, none_doubled, none_cyclic, links_hold};
ghost use Rattle.link_rules.specs.Filling.{Filled, Placed};

use crate::rows::no_cycle;
use numbers::{LINKS, PRINCIPALS, TAGS};

// "An unmade number": no link of the first n has one.
pub fn all_made(links: &[u32], n: usize, tags: u32, principals: u32) -> bool
    requires { n ≤ length links.now }
    ensures { result ≡ all_made links.now n tags principals }
{
    links[..n].iter().fold(true, |ok, x| {
        ok & (x / 65536 < tags) & (x / 256 % 256 < principals) & (x % 256 < principals)
    })
}

// "A link to the public": the first n have none.
pub fn none_to_public(links: &[u32], n: usize) -> bool
    requires { n ≤ length links.now }
    ensures { result ≡ none_to_public links.now n }
{
    links[..n].iter().fold(true, |ok, x| ok & (x % 256 != 0))
}

// Fills empty rows with the first n links, and says whether none stands twice.
fn fill(links: &[u32], n: usize, rows: &mut [u64], starts: &mut [u64]) -> bool
    requires n_in_bounds { (n ≤ length links.now) × Placed links.now n (length starts.old) }
    requires rows_len { length rows.old ≡ length starts.old * 64 }
    requires filled { Filled links.now 0 rows.old starts.old }
    ensures value { result ≡ none_doubled links.now n }
    ensures filled_2 { Filled links.now n rows.new starts.new }
{
    let mut ok = true;
    for x in &links[..n] {
        let t = (x / 65536) as usize;
        let p = x / 256 % 256;
        let q = x % 256;
        let k = t * 64 + p as usize;
        ok &= (rows[k] >> q) & 1 == 0;
        rows[k] |= 1 << q;
        starts[t] |= 1 << p;
    }
    ok
}

// "A doubled link", or remembered pair: none of the first n, which read as links of tag 0, stands twice.
pub fn none_doubled(list: &[u32], n: usize) -> bool
    requires { (n ≤ length list.now) × Placed list.now n 1 }
    ensures { result ≡ none_doubled list.now n }
{
    let mut rows = [0u64; 64];
    let mut starts = [0u64; 1];
    fill(list, n, &mut rows, &mut starts)
}

// "A cycle": the rows of the first tags hold none.
fn none_cyclic(rows: &[u64], starts: &[u64], tags: usize) -> bool
    requires tags_in_bounds { (tags ≤ length starts.now) × (length rows.now ≡ length starts.now * 64) }
    requires by_index { (t : ℕ) → t < tags → Leaving rows.now (t * 64) (get_or starts.now t 0) }
    ensures { result ≡ all_below tags (λ t. no_cycle (row_links rows.now (t * 64))) }
{
    (0..tags).fold(true, |ok, t| ok & no_cycle(rows, t * 64, starts[t]))
}

// Neither a cycle nor a doubled link among the first n, with empty rows to fill.
fn plain(links: &[u32], n: usize, rows: &mut [u64], starts: &mut [u64], tags: usize) -> bool
    requires n_in_bounds { (n ≤ length links.now) × Placed links.now n (length starts.old) }
    requires rows_len { (length rows.old ≡ length starts.old * 64) × (tags ≤ length starts.old) }
    requires filled { Filled links.now 0 rows.old starts.old }
    ensures { result ≡ (none_cyclic links.now n tags && none_doubled links.now n) }
{
    let single = fill(links, n, rows, starts);
    none_cyclic(rows, starts, tags) & single
}

// "A limit, or a lent list of other than 256 places".
fn in_limits(places: usize, n: usize, tags: u32, principals: u32) -> bool
    ensures { result ≡ in_limits places n tags principals }
{
    (places == LINKS)
        & ((n <= LINKS) & ((tags as usize <= TAGS) & (principals as usize <= PRINCIPALS)))
}

// A list of links of the first tags obeys every rule of 9 that speaks of it. The rows are empty.
fn hold(
    links: &[u32],
    n: usize,
    rows: &mut [u64],
    starts: &mut [u64],
    tags: u32,
    principals: u32,
) -> bool
    requires rows_len { (length rows.old ≡ length starts.old * 64) × (tags ≤ 64 → tags ≤ length starts.old) }
    requires filled { Filled links.now 0 rows.old starts.old }
    ensures { result ≡ links_hold links.now n tags principals }
{
    in_limits(links.len(), n, tags, principals)
        && all_made(links, n, tags, principals)
        && plain(links, n, rows, starts, tags as usize)
        && none_to_public(links, n)
}

// The same, with rows for so many tags.
fn hold_in<const ROWS: usize, const ROOMS: usize>(
    links: &[u32],
    n: usize,
    tags: u32,
    principals: u32,
) -> bool
    requires rooms { (ROWS ≡ ROOMS * 64) × (ROOMS ≤ 64) × (tags ≤ 64 → tags ≤ ROOMS) }
    ensures { result ≡ links_hold links.now n tags principals }
{
    let mut rows = [0u64; ROWS];
    let mut starts = [0u64; ROOMS];
    hold(links, n, &mut rows, &mut starts, tags, principals)
}

// The list of principal links obeys every rule of 9 that speaks of it.
pub fn principal_links_hold(links: &[u32], n: usize, principals: u32) -> bool
    ensures { result ≡ links_hold links.now n 1 principals }
{
    hold_in::<64, 1>(links, n, 1, principals)
}

// And that of the tag links. Few tags need few rows, which are sooner cleared.
pub fn tag_links_hold(links: &[u32], n: usize, tags: u32, principals: u32) -> bool
    ensures { result ≡ links_hold links.now n tags principals }
{
    if tags <= 8 {
        hold_in::<512, 8>(links, n, tags, principals)
    } else {
        hold_in::<4096, 64>(links, n, tags, principals)
    }
}
