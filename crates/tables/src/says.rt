// What a row of plain numbers says, and the row that says it. Every row says something: a flag is set unless it
// is 0, and an object of a kind over 1 is a lock. That no other numbers stand in a row is a rule of 9.
ghost use Rattle.std.specs.Prelude.{◌≡◌};
ghost use Rattle.tables.specs.Rows.{
  flag_of,
  is_live,
  rank_of,
  tag_row,
  is_free,
  kind_in,
  held_in,
  is_locked,
  what_of,
  object_row,
};

use crate::rows::{ObjectRow, Rank, TagRow, What};
use numbers::{CELL, LOCK, LabelPair, Principal, QUEUE, Tag};

// A flag: 1 for yes, 0 for no.
pub fn flag_of(set: bool) -> u8
    ensures { result ≡ flag_of set }
{
    u8::from(set)
}

pub fn is_live(live: u8) -> bool
    ensures { result ≡ is_live live }
{
    live != 0
}

// "each a supertag or a subtag of one supertag"
#[tactic(auto, unfolding(crate::specs::Rows::rank_of))]
pub fn rank_of(row: TagRow) -> Rank
    ensures { result ≡ rank_of row }
{
    if row.subtag != 0 {
        Rank::SubtagOf(row.supertag)
    } else {
        Rank::Supertag
    }
}

// The row of a tag of this rank.
pub fn tag_row_of(root: Principal, rank: Rank) -> TagRow
    ensures { result ≡ tag_row root rank }
{
    match rank {
        Rank::Supertag => TagRow {
            root,
            subtag: 0,
            supertag: Tag(0),
        },
        Rank::SubtagOf(supertag) => TagRow {
            root,
            subtag: 1,
            supertag,
        },
    }
}

pub fn is_free(what: What) -> bool
    ensures { result ≡ is_free what }
{
    matches!(what, What::Free)
}

// The number of its kind; 0 where there is none.
fn kind_in(what: What) -> u8
    ensures { result ≡ kind_in what }
{
    match what {
        What::Free => 0,
        What::Cell => CELL,
        What::Queue(_) => QUEUE,
        What::Lock(_) => LOCK,
    }
}

// How many messages a queue holds.
pub fn held_in(what: What) -> usize
    ensures { result ≡ held_in what }
{
    match what {
        What::Queue(held) => held,
        _ => 0,
    }
}

pub fn is_locked(what: What) -> bool
    ensures { result ≡ is_locked what }
{
    matches!(what, What::Lock(true))
}

// "of kind 0 cell, 1 queue, 2 lock"
#[tactic(auto, unfolding(crate::specs::Rows::what_of))]
pub fn what_of(row: ObjectRow) -> What
    ensures { result ≡ what_of row }
{
    if row.live == 0 {
        return What::Free;
    }
    match row.kind {
        CELL => What::Cell,
        QUEUE => What::Queue(row.held),
        _ => What::Lock(row.locked != 0),
    }
}

// The row of an object that is this.
pub fn object_row_of(what: What, labels: LabelPair) -> ObjectRow
    ensures { result ≡ object_row what labels }
{
    ObjectRow {
        live: flag_of(!is_free(what)),
        kind: kind_in(what),
        held: held_in(what),
        locked: flag_of(is_locked(what)),
        labels,
    }
}
