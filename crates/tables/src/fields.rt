// The rules of 9 (01, "Refusal numbers") on what rows of several tables have: flags and labels.
ghost use Rattle.std.specs.Prelude.{◌≡◌};
ghost use Rattle.tables.specs.Fields.{is_flag, labels_made, labels_empty};

use numbers::LabelPair;

// "A limit": a flag is 0 or 1.
pub fn is_flag(n: u8) -> bool
    ensures { result ≡ is_flag n }
{
    n <= 1
}

// "An unmade number": both labels name made tags only.
pub fn labels_made(l: LabelPair, tags: u32) -> bool
    ensures { result ≡ labels_made tags l }
{
    let count = tags as usize;
    l.secrecy.names_only_made(count) & l.integrity.names_only_made(count)
}

pub fn labels_empty(l: LabelPair) -> bool
    ensures { result ≡ labels_empty l }
{
    l.secrecy.is_empty() & l.integrity.is_empty()
}
