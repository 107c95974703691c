// The state of the monitor: the tables and, beside them, the remembered answers. How it starts.
#![tactic(auto)]

ghost use Rattle.std.specs.Prelude.{◌≡◌};
ghost use Rattle.state.specs.Start.{empty_memory, started, zeroed};

use memory::Memory;
use numbers::REMEMBERED;
use tables::{Tables, fresh_tables};

#[repr(C)]
#[derive(Clone, Copy)]
pub struct State {
    pub tables: Tables,
    pub memory: Memory,
}

// A start: 0, or the refusal 11, and the state.
#[derive(Clone, Copy)]
pub struct Started {
    pub status: u8,
    pub state: State,
}

// A memory of this size that holds nothing and was not asked yet.
fn empty_memory(size: usize) -> Memory
    ensures { result ≡ empty_memory size }
{
    Memory {
        size,
        held: 0,
        pairs: [0; 64],
        questions: 0,
        hits: 0,
    }
}

// "Starting with a memory size over 64 is refused as 11 and gives the fresh state with size 0."
fn fresh(size: usize) -> Started
    ensures { result ≡ started size }
{
    let tables = fresh_tables();
    if REMEMBERED < size {
        let memory = empty_memory(0);
        return Started {
            status: 11,
            state: State { tables, memory },
        };
    }
    let memory = empty_memory(size);
    Started {
        status: 0,
        state: State { tables, memory },
    }
}

// The fresh state: "no links, tags or objects". The lent store becomes zero, whatever its length; one of another
// length is refused 9 by the first request.
pub fn start(size: usize, store: &mut [u8]) -> Started
    ensures value { result ≡ started size }
    ensures store_after { store.new ≡ zeroed store.old }
{
    let bytes = store.len();
    store::clear(store, 0, bytes);
    fresh(size)
}
