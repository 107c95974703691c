// The lists of links as 01 has them: "a list of link records that the caller lends, 256 places each, in order of
// acceptance". A record stands for the number that the core gives its link, and the core works on numbers: the
// records are gathered as numbers, and what a request changes is put back into them.
//
// There are two types of record, and one set of functions for a list of either.
#![tactic(auto)]

mod lists;
pub mod principals;
pub mod tags;

pub use lists::{Link, append, clear, find, numbered, numbers_of, put_back, remove};
pub use principals::PrincipalLink;
pub use tags::TagLink;
