// "New threads and objects take the lowest free number, freed ones included."
ghost use Rattle.std.specs.Prelude.{◌≡◌};
ghost use Rattle.tables.specs.Free.{free_thread, free_object};

use crate::rows::{ObjectRow, ThreadRow};
use crate::says::{is_free, is_live, what_of};

// The lowest thread number that is not live.
pub fn free_thread(rows: &[ThreadRow; 16]) -> Option<usize>
    ensures { result ≡ free_thread rows.now }
{
    rows.iter().position(|row| !is_live(row.live))
}

// The lowest object number that is free.
pub fn free_object(rows: &[ObjectRow; 64]) -> Option<usize>
    ensures { result ≡ free_object rows.now }
{
    rows.iter().position(|row| is_free(what_of(*row)))
}
