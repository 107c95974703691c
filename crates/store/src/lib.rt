// Messages of objects in one lent store of bytes. Each object has 8 places of 33 bytes: a length byte and
// room for the longest message. What follows a message in its place is zero.
// Which place is in use is not known here: the caller says where a place or an object begins.
#![tactic(auto)]

ghost use Rattle.std.specs.Prelude.{◌≡◌, List, ℕ, ◌+◌, ◌≤◌, eqb, length, map};
ghost use Rattle.std.proofs.lemmas.List.{map-id};
ghost use Rattle.store.specs.Store.{object_size, place_at, byte_at, message_at, zeros, cleared, put, took_first};

use numbers::{MESSAGE, OBJECTS, Object, QUEUED};

// A length byte, and room for the longest message.
pub const PLACE: usize = 1 + MESSAGE;

// 8 places.
pub const OBJECT: usize = QUEUED * PLACE;

// 64 objects.
pub const STORE: usize = OBJECTS * OBJECT;

// Where place k of an object begins.
pub fn place_at(o: Object, k: usize) -> usize
    requires { k ≤ 8 }
    ensures { result ≡ place_at o.0 k }
{
    o.0 as usize * OBJECT + k * PLACE
}

// The message at the place that begins at `at`: a part of the store.
pub fn message(store: &[u8], at: usize) -> &[u8]
    requires { (at + 33 ≤ length store.now) × (byte_at store.now at ≤ 32) }
    ensures { result.now ≡ message_at store.now at }
{
    let from = at + 1;
    let n = store[at] as usize;
    &store[from..from + n]
}

// A number of up to 32 bits. A list of such numbers is a list of ℕ to a clause.
pub trait Number: Copy {
    ghost value: { Self → ℕ };

    ghost values: { List Self → List ℕ };

    fn value(self) -> u32
        ensures { result ≡ value self };

    ghost one_by_one: { (s : List Self) → map value s ≡ values s };
}

impl Number for u8 {
    ghost value = { λ x. x };

    ghost values = { λ s. s };

    ghost one_by_one = { map-id };

    fn value(self) -> u32 {
        u32::from(self)
    }
}

impl Number for u32 {
    ghost value = { λ x. x };

    ghost values = { λ s. s };

    ghost one_by_one = { map-id };

    fn value(self) -> u32 {
        self
    }
}

// The n numbers from there on are zero. All are read, whatever the first ones are.
pub fn zeros<T: Number>(s: &[T], from: usize, n: usize) -> bool
    requires { from + n ≤ length s.now }
    ensures { result ≡ zeros (T.values s.now) from n }
{
    s[from..from + n]
        .iter()
        .fold(true, |ok, x| ok & (x.value() == 0))
}

// The n bytes from there on become zero.
pub fn clear(s: &mut [u8], from: usize, n: usize)
    requires { from + n ≤ length s.old }
    ensures { s.new ≡ cleared s.old from n }
{
    s[from..from + n].fill(0);
}

// The place that begins at `at` gets the message, and what follows in the place becomes zero.
pub fn put(store: &mut [u8], at: usize, message: &[u8])
    requires { (length message.now ≤ 32) × (at + 33 ≤ length store.old) }
    ensures { store.new ≡ put store.old at message.now }
{
    let n = message.len();
    store[at] = n as u8;
    let from = at + 1;
    store[from..from + n].copy_from_slice(message);
    let rest = from + n;
    clear(store, rest, MESSAGE - n);
}

// The first message of the object whose places begin at `at` is taken: the others move down, and the last
// place becomes zero.
pub fn take_first(store: &mut [u8], at: usize)
    requires { at + 264 ≤ length store.old }
    ensures { store.new ≡ took_first store.old at }
{
    store.copy_within(at + PLACE..at + OBJECT, at);
    clear(store, at + (OBJECT - PLACE), PLACE);
}

// The object whose places begin at `at` is freed: all its bytes become zero.
pub fn free(store: &mut [u8], at: usize)
    requires { at + 264 ≤ length store.old }
    ensures { store.new ≡ cleared store.old at object_size }
{
    clear(store, at, OBJECT);
}
