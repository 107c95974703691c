// The rules of 9 that speak of the remembered answers (01, "Refusal numbers"), but for their truth.
#![tactic(auto)]

ghost use Rattle.std.specs.Prelude.{◌≡◌, ◌≤◌, length};
ghost use Rattle.memory_rules.specs.MemoryRules.{pairs_made, pairs_hold, size_holds, memory_holds};

use link_rules::none_doubled;
use memory::Memory;
use numbers::REMEMBERED;
use store::zeros;

// "An unmade number": neither half of the first n pairs is one.
fn pairs_made(pairs: &[u32], n: usize, tags: u32, principals: u32) -> bool
    requires { n ≤ length pairs.now }
    ensures { result ≡ pairs_made pairs.now n tags principals }
{
    pairs[..n]
        .iter()
        .all(|x| (x / 256 < principals) & (x % 256 < tags))
}

// "Over 64 or over-size memory"
fn size_holds(size: usize, held: usize) -> bool
    ensures { result ≡ size_holds size held }
{
    size <= REMEMBERED && held <= size
}

// The first n pairs are made, the others are zero, and none stands twice.
fn pairs_hold(pairs: &[u32], n: usize, tags: u32, principals: u32) -> bool
    requires pairs_len { (length pairs.now ≡ 64) × (n ≤ 64) }
    requires tags_bound { (tags ≤ 64) × (principals ≤ 64) }
    ensures { result ≡ pairs_hold pairs.now n tags principals }
{
    pairs_made(pairs, n, tags, principals)
        && zeros(pairs, n, REMEMBERED - n)
        && none_doubled(pairs, n)
}

// The memory obeys every rule of 9 that speaks of it, but for its truth.
pub fn memory_holds(m: &Memory, tags: u32, principals: u32) -> bool
    requires { (tags ≤ 64) × (principals ≤ 64) }
    ensures { result ≡ memory_holds m.now tags principals }
{
    size_holds(m.size, m.held)
        && pairs_hold(&m.pairs, m.held, tags, principals)
        && m.hits <= m.questions
}
