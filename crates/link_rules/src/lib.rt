// Whole link lists: the rules of 9 that speak of links (01, "Refusal numbers").
//
// Each list is tested in a few passes: no pair of links is compared and no walk is made for a link.
#![tactic(auto)]

mod rows;
mod rules;

pub use rules::{none_doubled, principal_links_hold, tag_links_hold};
