// Rows of bits, and whether the links in them make a cycle: principals that lead to none that is left
// are taken away, until none can be; what is left then goes round.
ghost use Rattle.std.specs.Prelude.{◌≡◌, true, ◌+◌, ◌≤◌, ◌<◌, length};
ghost use Rattle.numbers.specs.Sets.{contains};
ghost use Rattle.links.specs.Cycles.{no_cycle};
ghost use Rattle.link_rules.specs.Rows.{row_links, Leaving, Swept, Stripped};

// The lowest or the highest member of a set.
fn one_of(set: u64, down: bool) -> u32
    requires { 0 < set }
    ensures { (result < 64) × (contains set result ≡ true) }
{
    if down {
        63 - set.leading_zeros()
    } else {
        set.trailing_zeros()
    }
}

// One pass over the principals that are left: whoever leads to none of them goes.
fn sweep(rows: &[u64], at: usize, alive: u64, down: bool) -> u64
    requires { at + 64 ≤ length rows.now }
    ensures { Swept rows.now at alive result }
{
    let mut s = alive;
    let mut rest = alive;
    while 0 < rest {
        let p = one_of(rest, down);
        if rows[at + p as usize] & s == 0 {
            s &= !(1 << p);
        }
        rest &= !(1 << p);
    }
    s
}

// Passes up and down by turns: a chain that one of them takes link by link falls at once to the other.
fn strip(rows: &[u64], at: usize, starts: u64) -> u64
    requires { at + 64 ≤ length rows.now }
    ensures { Stripped rows.now at starts result }
{
    let mut alive = starts;
    loop {
        let up = sweep(rows, at, alive, false);
        let next = sweep(rows, at, up, true);
        if next == alive {
            return alive;
        }
        alive = next;
    }
}

// The links of 64 rows make no cycle; `starts` has every principal whose row is not empty.
pub fn no_cycle(rows: &[u64], at: usize, starts: u64) -> bool
    requires at_in_bounds { at + 64 ≤ length rows.now }
    requires leaving { Leaving rows.now at starts }
    ensures { result ≡ no_cycle (row_links rows.now at) }
{
    strip(rows, at, starts) == 0
}
