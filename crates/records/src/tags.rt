// The record of a tag link.
ghost use Rattle.records.specs.Records.{tag_number, tag_link};

use crate::lists::Link;
use links::tag_link;
use numbers::{Principal, Tag};

// "tag links (tag, from, to)"
#[repr(C)]
#[derive(Clone, Copy)]
pub struct TagLink {
    pub tag: Tag,
    pub from: Principal,
    pub to: Principal,
}

impl Link for TagLink {
    ghost number = { tag_number };

    ghost of_number = { tag_link };

    fn number_of(self) -> u32 {
        tag_link(self.tag, self.from, self.to)
    }

    fn link_of(x: u32) -> TagLink {
        TagLink {
            tag: Tag((x / 65536 % 256) as u8),
            from: Principal((x / 256 % 256) as u8),
            to: Principal((x % 256) as u8),
        }
    }

    fn in_bytes(self) {
        let _tag = self.tag.0;
        let _from = self.from.0;
        let _to = self.to.0;
    }
}
