// The tables (01, "Things and numbers"): a row a thread, tag and object, and the counts. The two lists of
// links and the store of messages are lent beside them, and the remembered answers stand beside them too.
// A place that is not in use is zero.
#![tactic(auto)]

pub mod fields;
pub mod free;
pub mod lineage;
pub mod rows;
pub mod says;

ghost use Rattle.std.specs.Prelude.{◌≡◌};
ghost use Rattle.tables.specs.Things.{fresh_tables};

use crate::rows::{ObjectRow, TagRow, ThreadRow, no_object, no_tag, no_thread, office_thread};

#[repr(C)]
#[derive(Clone, Copy, PartialEq, Eq)]
pub struct Tables {
    pub principals: u32,
    pub links: usize,
    pub tags: u32,
    pub grants: usize,
    pub threads: [ThreadRow; 16],
    pub kinds: [TagRow; 64],
    pub objects: [ObjectRow; 64],
}

// "Fresh: principals 0 and 1, no links, tags or objects; thread 0 live, principal 1, empty labels."
pub fn fresh_tables() -> Tables
    ensures { result ≡ fresh_tables }
{
    let none = no_thread();
    let mut threads = [none; 16];
    threads[0] = office_thread();
    let tag = no_tag();
    let object = no_object();
    Tables {
        principals: 2,
        links: 0,
        tags: 0,
        grants: 0,
        threads,
        kinds: [tag; 64],
        objects: [object; 64],
    }
}
