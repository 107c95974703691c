// Leaves and authority: the link lists and the walk (01, "Who may do what").
//
// A list of links is a lent slice of numbers, a link each, in order of acceptance, with a count of the
// places in use. Its slice is of any length, its count may lie, and its numbers are of any size: a link
// one of whose ends is 64 or more names no principal, and counts for nothing.
#![tactic(auto)]

mod authority;
mod cycles;
mod lists;
mod walk;

pub use authority::{Leaves, Lineage, Rooted};
pub use lists::{Graph, LinkList, principal_link, tag_link, used};
