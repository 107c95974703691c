// The rules of 9 that speak of the rows of tags (01, "Refusal numbers"): limits, made numbers, roots, supertags
// and unused places.
#![tactic(auto)]

ghost use Rattle.std.specs.Prelude.{◌≡◌, ◌≤◌, ◌<◌};
ghost use Rattle.tag_rules.specs.TagRules.{is_supertag, is_no_tag, tag_numbers_hold, root_holds, above_of, row_passes, tags_made, tags_unused, tags_hold};

use numbers::{PUBLIC, Principal, TAGS};
use tables::fields::is_flag;
use tables::rows::{Rank, TagRow};
use tables::says::rank_of;

fn is_supertag(rank: Rank) -> bool
    ensures { result ≡ is_supertag rank }
{
    matches!(rank, Rank::Supertag)
}

// The flag is 0 or 1, and a tag that is no subtag has no supertag.
fn numbers_hold(row: TagRow) -> bool
    ensures { result ≡ tag_numbers_hold row }
{
    is_flag(row.subtag) & ((row.subtag != 0) | (row.supertag.0 == 0))
}

// A root is made, and is not the public.
fn root_holds(root: Principal, principals: u32) -> bool
    ensures { result ≡ root_holds principals root }
{
    ((root.0 as u32) < principals) & (root.0 != PUBLIC)
}

// The row that must be a supertag's: that of the supertag where it is an earlier tag, else tag i's own.
fn above_of(rank: Rank, i: usize) -> usize
    ensures { result ≡ above_of rank i }
{
    match rank {
        Rank::Supertag => i,
        Rank::SubtagOf(t) => {
            let above = t.0 as usize;
            if above < i { above } else { i }
        }
    }
}

// Row i, of a tag that is made: plain numbers, a root that is made and not the public, and no subtag of a subtag
// or of a later tag.
fn row_passes(rows: &[TagRow; 64], i: usize, principals: u32) -> bool
    requires { i < 64 }
    ensures { result ≡ row_passes principals rows.now i }
{
    let row = rows[i];
    let above = rows[above_of(rank_of(row), i)];
    numbers_hold(row) & (root_holds(row.root, principals) & is_supertag(rank_of(above)))
}

// The rows of the first n tags, which are made, pass.
fn tags_made(rows: &[TagRow; 64], n: usize, principals: u32) -> bool
    requires { n ≤ 64 }
    ensures { result ≡ tags_made principals rows.now n }
{
    (0..n).all(|i| row_passes(rows, i, principals))
}

// The row of a tag that is not made is zero.
fn is_no_tag(row: TagRow) -> bool
    ensures { result ≡ is_no_tag row }
{
    (row.root.0 == PUBLIC) & ((row.subtag == 0) & (row.supertag.0 == 0))
}

// "Nonzero unused place": the rows after the first n are zero.
fn tags_unused(rows: &[TagRow; 64], n: usize) -> bool
    ensures { result ≡ tags_unused rows.now n }
{
    rows.iter().skip(n).all(|row| is_no_tag(*row))
}

pub fn tags_hold(rows: &[TagRow; 64], tags: u32, principals: u32) -> bool
    ensures { result ≡ tags_hold principals tags rows.now }
{
    let n = tags as usize;
    n <= TAGS && tags_made(rows, n, principals) && tags_unused(rows, n)
}
