// What a decision's changes do to the store, the rows and the counts of links (01, "Requests", the column "done").
// Nothing is tested here: `decide` has seen to it that there is room. The lists of links are changed by whoever
// holds them (crate `records`).
#![tactic(auto)]

pub mod rows;

ghost use Rattle.std.specs.Prelude.{◌≡◌};
ghost use Rattle.apply.specs.Apply.{count_after, ListFits, apply_store, StoreFits};

use outcomes::{ListChange, StoreChange};

// How many links of a list are in use then, of n.
pub fn count_after(c: ListChange, n: usize) -> usize
    requires { ListFits c n }
    ensures { result ≡ count_after c n }
{
    match c {
        ListChange::Keep => n,
        ListChange::Append(_) => n + 1,
        ListChange::Remove(_) => n - 1,
    }
}

// The lent store. A message that is put is one of the frame.
pub fn apply_store(c: StoreChange, frame: &[u8], store: &mut [u8])
    requires { StoreFits c frame.now store.old }
    ensures { store.new ≡ apply_store c frame.now store.old }
{
    match c {
        StoreChange::Keep => (),
        StoreChange::Put(at, m) => store::put(store, at, &frame[m.at..m.at + m.len]),
        StoreChange::TakeFirst(at) => store::take_first(store, at),
        StoreChange::Free(at) => store::free(store, at),
    }
}
