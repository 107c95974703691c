// The record of a principal link.
ghost use Rattle.records.specs.Records.{principal_number, principal_link};

use crate::lists::Link;
use links::principal_link;
use numbers::Principal;

// "Principal links (from, to)"
#[repr(C)]
#[derive(Clone, Copy)]
pub struct PrincipalLink {
    pub from: Principal,
    pub to: Principal,
}

impl Link for PrincipalLink {
    ghost number = { principal_number };

    ghost of_number = { principal_link };

    fn number_of(self) -> u32 {
        principal_link(self.from, self.to)
    }

    fn link_of(x: u32) -> PrincipalLink {
        PrincipalLink {
            from: Principal((x / 256 % 256) as u8),
            to: Principal((x % 256) as u8),
        }
    }

    fn in_bytes(self) {
        let _from = self.from.0;
        let _to = self.to.0;
    }
}
