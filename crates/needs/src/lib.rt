// Requests (01, "Requests"): what is fixed about each kind of request.
//
// "Which of null, read, write or both a kind needs (12, 13, 1B test more) is one fixed table, looked
// up by kind." What 12, 13 and 1B test more is not here.
#![tactic(auto)]

ghost use Rattle.std.specs.Prelude.{◌≡◌};
ghost use Rattle.needs.specs.Needs.{need_of};

use numbers::Need;

// Kinds 01 to 1B are known; 00 is not.
pub const KINDS: usize = 28;

const NEEDS: [Need; KINDS] = [
    Need::None, // 00 is no kind
    Need::Null, // 01 new principal
    Need::Null, // 02 delegate
    Need::Null, // 03 revoke
    Need::None, // 04 acts for
    Need::Null, // 05 new tag
    Need::Null, // 06 new subtag
    Need::Null, // 07 grant
    Need::Null, // 08 ungrant
    Need::None, // 09 authoritative
    Need::None, // 0A into S
    Need::None, // 0B out of S
    Need::None, // 0C into I
    Need::None, // 0D out of I
    Need::Null, // 0E fork
    Need::Null, // 0F end
    Need::None, // 10 call
    Need::None, // 11 return
    Need::Null, // 12 new object
    Need::Null, // 13 delete
    Need::Read, // 14 read cell
    Need::Write, // 15 write cell
    Need::Write, // 16 put
    Need::Both, // 17 get
    Need::Both, // 18 lock
    Need::Write, // 19 unlock
    Need::Null, // 1A send out
    Need::None, // 1B bring in
];

// What a kind needs of the flow. A kind that is not known needs nothing: it is refused before.
pub fn need_of(kind: u8) -> Need
    ensures { result ≡ need_of kind }
{
    NEEDS.get(kind as usize).copied().unwrap_or(Need::None)
}
