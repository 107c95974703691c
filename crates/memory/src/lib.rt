// Remembered answers (01, "Remembered answers"): at most M pairs (principal, tag), latest first, and the
// two counters. A question is answered by the memory where it holds the pair, and by the walk otherwise.
//
// The memory stands beside the tables. What it holds is a yes whatever the links say: that it is true is
// a rule of 9, and is not tested here.
#![tactic(auto)]

ghost use Rattle.std.specs.Prelude.{◌≡◌, ◌<◌, length, take};
ghost use Rattle.links.specs.declared.lists.Graph.TheVariants.{Principals};
ghost use Rattle.links.specs.Links.{find_in, links_in};
ghost use Rattle.links.specs.Authority.{authoritative};
ghost use Rattle.memory.specs.Remembered.{pair_of, slid};
ghost use Rattle.memory.specs.Notes.{renewed, as_is, wiped, counting, brought, among_places, judged};

use links::{Leaves, Lineage};
use numbers::{Principal, REMEMBERED, Tag, one_more};

// A pair is the number of its principal * 256 + that of its tag. The first `held` places are in use.
#[repr(C)]
#[derive(Clone, Copy)]
pub struct Memory {
    pub size: usize,
    pub held: usize,
    pub pairs: [u32; 64],
    pub questions: u32,
    pub hits: u32,
}

// The numbers of a memory beside its pairs.
#[derive(Clone, Copy)]
pub struct Tally {
    pub size: usize,
    pub held: usize,
    pub questions: u32,
    pub hits: u32,
}

// What becomes of the pairs: they stay, or a pair "goes to the front" from its place, or all are cleared.
#[derive(Clone, Copy)]
pub enum PairChange {
    Keep,
    Front(usize, u32),
    Clear,
}

// What is to be written into a memory: its numbers, and what becomes of its pairs.
#[derive(Clone, Copy)]
pub struct Note {
    pub held: usize,
    pub questions: u32,
    pub hits: u32,
    pub pairs: PairChange,
}

// What a question gives: the yes or no, and what it leaves to write.
#[derive(Clone, Copy)]
pub struct Verdict {
    pub yes: bool,
    pub note: Note,
}

// The number of a pair.
pub fn pair_of(p: Principal, t: Tag) -> u32
    ensures { result ≡ pair_of p t }
{
    p.0 as u32 * 256 + t.0 as u32
}

// ---- the pairs, where they lie

// Where x stands among the first n pairs.
pub fn place(pairs: &[u32; 64], n: usize, x: u32) -> Option<usize>
    ensures { result ≡ find_in (take n pairs.now) x }
{
    pairs.iter().take(n).position(|y| *y == x)
}

// The change is made. From a place past the last no pair comes to the front.
#[tactic(auto, unfolding(crate::specs::Notes::renewed))]
pub fn renew(pairs: &mut [u32; 64], change: PairChange)
    ensures { pairs.new ≡ renewed change pairs.old }
{
    match change {
        PairChange::Keep => {}
        PairChange::Front(k, x) => {
            if k < pairs.len() {
                slide(pairs, k, x);
            }
        }
        PairChange::Clear => *pairs = [0; 64],
    }
}

// The first k places move on by one, over what stood at k, and x comes first.
fn slide(pairs: &mut [u32], k: usize, x: u32)
    requires { k < length pairs.old }
    ensures { pairs.new ≡ slid k x pairs.old }
{
    pairs[..=k].rotate_right(1);
    pairs[0] = x;
}

// ---- what a question leaves to write

// Nothing is to be written.
pub fn as_is(t: Tally) -> Note
    ensures { result ≡ as_is t }
{
    Note {
        held: t.held,
        questions: t.questions,
        hits: t.hits,
        pairs: PairChange::Keep,
    }
}

// All pairs are cleared instead; the counters are written all the same.
pub fn wiped(n: Note) -> Note
    ensures { result ≡ wiped n }
{
    Note {
        held: 0,
        pairs: PairChange::Clear,
        ..n
    }
}

// "The host may clear the memory between requests; this leaves the counters."
pub fn forgotten(t: Tally) -> Note
    ensures { result ≡ wiped (as_is t) }
{
    wiped(as_is(t))
}

// A question is counted; so many pairs are held then, with so many hits, and this becomes of the pairs.
fn counted(t: Tally, held: usize, hits: u32, pairs: PairChange) -> Note
    ensures { result ≡ counting t held hits pairs }
{
    Note {
        held,
        questions: one_more(t.questions),
        hits,
        pairs,
    }
}

// "On yes the pair goes to the front and anything beyond M falls off": from its own place, where it is held; else from
// behind the last pair, and where there is no room, from the last one's. With M = 0 nothing is held.
fn brought(t: Tally, place: Option<usize>, pair: u32) -> Note
    ensures { result ≡ brought t place pair }
{
    let held = t.held;
    match place {
        Some(k) => counted(t, held, one_more(t.hits), PairChange::Front(k, pair)),
        None if held < t.size => counted(t, held + 1, t.hits, PairChange::Front(held, pair)),
        None if held < 1 => counted(t, held, t.hits, PairChange::Keep),
        None => counted(t, held, t.hits, PairChange::Front(held - 1, pair)),
    }
}

// A place of the memory. Past the last no pair is held, whatever the caller says.
fn among_places(place: Option<usize>) -> Option<usize>
    ensures { result ≡ among_places place }
{
    place.filter(|k| *k < REMEMBERED)
}

// "A question .. is asked by 06, 09, 0B and 0C, once, when the authority check is reached. If the pair is
// held it is a hit, and the yes is the memory's, with no walk; otherwise the walk answers."
pub fn ask(
    t: Tally,
    place: Option<usize>,
    pair: u32,
    leaves: Leaves<'_>,
    x: Lineage,
    p: Principal,
) -> Verdict
    ensures { result ≡ judged t place pair (authoritative (links_in leaves.entry.links.places.now leaves.entry.links.used Principals) leaves.entry.grants.places.now leaves.entry.grants.used x p) }
{
    let place = among_places(place);
    let yes = place.is_some() || leaves.authoritative(x, p);
    let note = if yes {
        brought(t, place, pair)
    } else {
        counted(t, t.held, t.hits, PairChange::Keep)
    };
    Verdict { yes, note }
}
