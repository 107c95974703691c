// A tag and its supertag, with their makers: what the question of authority is asked about.
ghost use Rattle.std.specs.Prelude.{◌≡◌};
ghost use Rattle.tables.specs.Rows.{rank_of};
ghost use Rattle.tables.specs.Things.{tag_at, supertag_of, lineage_in, lineage_of};

use crate::rows::{Rank, TagRow, no_tag};
use crate::says::rank_of;
use links::{Lineage, Rooted};
use numbers::{TAGS, Tag};

// The row of a tag; past the last there is a row of nothing.
fn tag_row(kinds: &[TagRow; 64], n: usize) -> TagRow
    ensures { result ≡ tag_at kinds.now n }
{
    kinds.get(n).copied().unwrap_or(no_tag())
}

// The number of a tag's supertag, of which a supertag has none.
pub fn supertag_of(row: TagRow) -> usize
    ensures { result ≡ supertag_of (rank_of row) }
{
    match rank_of(row) {
        Rank::Supertag => TAGS,
        Rank::SubtagOf(above) => above.0 as usize,
    }
}

// "Each tag has a root principal, its maker", "each a supertag or a subtag of one supertag": of tag t with this row,
// under a supertag with the row `above`.
pub fn lineage_in(t: Tag, row: TagRow, above: TagRow) -> Lineage
    ensures { result ≡ lineage_in t row above }
{
    let root = row.root;
    let own = Rooted { tag: t, root };
    match rank_of(row) {
        Rank::Supertag => Lineage::Supertag(own),
        Rank::SubtagOf(supertag) => {
            let maker = above.root;
            Lineage::Subtag(
                own,
                Rooted {
                    tag: supertag,
                    root: maker,
                },
            )
        }
    }
}

pub fn lineage(kinds: &[TagRow; 64], t: Tag) -> Lineage
    ensures { result ≡ lineage_of kinds.now t }
{
    let row = tag_row(kinds, t.0 as usize);
    lineage_in(t, row, tag_row(kinds, supertag_of(row)))
}
