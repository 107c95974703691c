// Labels: "a set of tags, one 64-bit number per label; tag n has weight 2^n" (01, "Things and numbers").
//
// Every function takes every 64-bit number and every tag number. A tag number of 64 or more names no
// tag of a label: no label has it, and adding it or taking it away leaves the label as it is.
ghost use Rattle.std.specs.Prelude.{◌≡◌};
ghost use Rattle.numbers.specs.Labels.{
  has,
  with_tag,
  without_tag,
  within,
  is_empty,
  union,
  names_only_made,
  size,
};
ghost use Rattle.numbers.specs.LabelBytes.{label_of_bytes, bytes_of_label};

use crate::{TAGS, Tag};

#[repr(C)]
#[derive(Clone, Copy, PartialEq, Eq)]
pub struct Label(pub u64);

impl Label {
    pub fn has(self, t: Tag) -> bool
        ensures { result ≡ has self t }
    {
        usize::from(t.0) < TAGS && (self.0 >> t.0) & 1 == 1
    }

    pub fn with(self, t: Tag) -> Label
        ensures { result ≡ with_tag self t }
    {
        if usize::from(t.0) < TAGS {
            Label(self.0 | (1 << t.0))
        } else {
            self
        }
    }

    pub fn without(self, t: Tag) -> Label
        ensures { result ≡ without_tag self t }
    {
        if usize::from(t.0) < TAGS {
            Label(self.0 & !(1 << t.0))
        } else {
            self
        }
    }

    pub fn within(self, b: Label) -> bool
        ensures { result ≡ within self b }
    {
        self.0 & b.0 == self.0
    }

    pub fn union(self, b: Label) -> Label
        ensures { result ≡ union self b }
    {
        Label(self.0 | b.0)
    }

    pub fn is_empty(self) -> bool
        ensures { result ≡ is_empty self }
    {
        self.0 == 0
    }

    // No tag of the label is unmade, where `count` tags are made.
    pub fn names_only_made(self, count: usize) -> bool
        ensures { result ≡ names_only_made self count }
    {
        TAGS <= count || self.0 >> count == 0
    }

    pub fn size(self) -> u32
        ensures { result ≡ size self }
    {
        self.0.count_ones()
    }

    // "Labels are 8 bytes, most significant first."
    pub fn from_bytes(b: [u8; 8]) -> Label
        ensures { result ≡ label_of_bytes b }
    {
        Label(u64::from_be_bytes(b))
    }

    pub fn to_bytes(self) -> [u8; 8]
        ensures { result ≡ bytes_of_label self }
    {
        self.0.to_be_bytes()
    }
}
