// The rules of 9 that speak of the store of messages (01, "Refusal numbers"): a message over 32 bytes, and
// bytes that are not in use and not zero. The rows of the objects say which places are in use.
#![tactic(auto)]

ghost use Rattle.std.specs.Prelude.{◌≡◌, ℕ, ◌+◌, ◌*◌, ◌≤◌, ◌<◌, length};
ghost use Rattle.tables.specs.Rows.{what_of};
ghost use Rattle.tables.specs.Things.{object_at};
ghost use Rattle.store_rules.specs.StoreRules.{places_used, place_holds, places_hold, object_holds, store_holds};

use numbers::MESSAGE;
use store::{OBJECT, PLACE, zeros};
use tables::rows::{ObjectRow, What};
use tables::says::what_of;

// How many of its 8 places an object uses.
fn places_used(what: What) -> usize
    ensures { result ≡ places_used what }
{
    match what {
        What::Cell => 1,
        What::Queue(held) => held,
        _ => 0,
    }
}

// A place in use: its message has at most 32 bytes, and zeros follow it.
fn place_holds(s: &[u8], at: usize) -> bool
    requires { at + 33 ≤ length s.now }
    ensures { result ≡ place_holds s.now at }
{
    let n = usize::from(s[at]);
    n <= MESSAGE && zeros(s, at + 1 + n, MESSAGE - n)
}

// So do the first n places of the object that begins there.
fn places_hold(s: &[u8], at: usize, n: usize) -> bool
    requires { (at + 264 ≤ length s.now) × (n ≤ 8) }
    ensures { result ≡ places_hold s.now at n }
{
    (0..n).all(|k| place_holds(s, at + k * PLACE))
}

// The object's places in use hold, and the others are zero. One that uses none is asked whole: 264 is a number that
// the compiler knows, and writes no loop for; with the loop a request's time hung on where the linker put the code.
fn object_holds(s: &[u8], at: usize, n: usize) -> bool
    requires { (at + 264 ≤ length s.now) × (n ≤ 8) }
    ensures { result ≡ object_holds s.now at n }
{
    if n == 0 {
        return zeros(s, at, OBJECT);
    }
    let used = n * PLACE;
    zeros(s, at + used, OBJECT - used) && places_hold(s, at, n)
}

// The store of these objects obeys both rules. The test ends at the first object that does not.
pub fn store_holds(s: &[u8], rows: &[ObjectRow; 64]) -> bool
    requires s_len { length s.now ≡ 16896 }
    requires by_index { (o : ℕ) → o < 64 → places_used (what_of (object_at rows.now o)) ≤ 8 }
    ensures { result ≡ store_holds s.now rows.now }
{
    rows.iter().enumerate().all(|(o, row)| object_holds(s, o * OBJECT, places_used(what_of(*row))))
}
