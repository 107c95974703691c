// A list of links, as records of either type.
ghost use Rattle.std.specs.Prelude.{◌≡◌, ℕ, map, take, replicate};
ghost use Rattle.links.specs.Links.{find_in, appended, gap_closed};
ghost use Rattle.records.specs.Records.{gathered, changed, cleared};

use links::used;
use outcomes::ListChange;

// A record of a link, and the number that the core gives the link.
pub trait Link: Copy {
    ghost number: { Self → ℕ };

    ghost of_number: { ℕ → Self };

    // The core's number of a link.
    fn number_of(self) -> u32
        ensures { result ≡ number self };

    // The link of a number.
    fn link_of(x: u32) -> Self
        ensures { result ≡ of_number x };

    // The fields of a link are bytes, so that it is the link of its number. Nothing is done.
    fn in_bytes(self)
        ensures { of_number (number self) ≡ self };
}

// Each link is that of its number, since its fields are bytes: for a caller that reasons about the numbers of all of
// them. Nothing is done.
pub fn numbered<L: Link>(links: &[L])
    ensures { map L.of_number (map L.number links.now) ≡ links.now }
{
    for link in links {
        link.in_bytes();
    }
}

// Where a link stands among the first n places.
pub fn find<L: Link>(links: &[L], n: usize, l: L) -> Option<usize>
    ensures { result ≡ find_in (take n (map L.number links.now)) (L.number l) }
{
    let x = l.number_of();
    links
        .iter()
        .map(|l| l.number_of())
        .take(n)
        .position(|y| y == x)
}

// A link more, at place n. A full list stays as it is.
pub fn append<L: Link>(links: &mut [L], n: usize, l: L)
    ensures { links.new ≡ appended links.old n l }
{
    if n < links.len() {
        links[n] = l;
    }
}

// The link at place i of the n in use is taken out, those after it move down, and the last place becomes zero.
pub fn remove<L: Link>(links: &mut [L], n: usize, i: usize)
    ensures { links.new ≡ gap_closed (L.of_number 0) links.old n i }
{
    let end = used(links.len(), n);
    if i < end {
        links.copy_within(i + 1..end, i);
        links[end - 1] = L::link_of(0);
    }
}

// The numbers of the links, as many as there are places for.
fn gather<L: Link>(links: &[L], numbers: &mut [u32])
    ensures { numbers.new ≡ gathered L.number links.now numbers.old }
{
    let end = used(links.len(), numbers.len());
    for (i, link) in links[..end].iter().enumerate() {
        numbers[i] = link.number_of();
    }
}

// The numbers of the first 256 links.
pub fn numbers_of<L: Link>(links: &[L]) -> [u32; 256]
    ensures { result ≡ gathered L.number links.now (replicate 256 0) }
{
    let mut numbers = [0u32; 256];
    gather(links, &mut numbers);
    numbers
}

// What a request changes in the list, of which n places are in use.
pub fn put_back<L: Link>(links: &mut [L], n: usize, c: ListChange)
    ensures { links.new ≡ changed L.of_number c n links.old }
{
    match c {
        ListChange::Keep => (),
        ListChange::Append(x) => append(links, n, L::link_of(x)),
        ListChange::Remove(i) => remove(links, n, i),
    }
}

// Every place becomes zero, however many there are.
pub fn clear<L: Link>(links: &mut [L])
    ensures { links.new ≡ cleared (L.of_number 0) links.old }
{
    links.fill_with(|| L::link_of(0));
}
