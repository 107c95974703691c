// The single-request entry: any bytes, any tables, lists and buffers of any length, with the lists of links lent
// as records. 10, then 9, then the step.
//
// The parameters, in this order: the state, the two lent lists of links, the lent store of messages, the frame,
// the lent answer buffer. The core reads the links as numbers that are gathered from the records, and the one
// change that a request makes in a list is put back into its records.
#![tactic(auto)]

ghost use Rattle.std.specs.Prelude.{◌≡◌, map};
ghost use Rattle.records.specs.Records.{principal_link, tag_link};
ghost use Rattle.entry.specs.Entry.{whole_places, reply_in, over_records, no_links};

use lent::counts_of;
use monitor::reply;
use records::{Link, PrincipalLink, TagLink, numbered, numbers_of, put_back};
use state::State;

// "256 places each"
const PLACES: usize = 256;

// What a request leaves beside the state, the lists and the lent buffers: its number or 0, and how many bytes of the
// answer buffer were written.
#[repr(C)]
#[derive(Clone, Copy)]
pub struct Reply {
    pub status: u8,
    pub written: usize,
}

// "a lent list of other than 256 places" is refused whatever stands in it, so none of it is handed on.
fn whole_places(places: usize) -> usize
    ensures { result ≡ whole_places places }
{
    if places == PLACES { PLACES } else { 0 }
}

pub fn request(
    s: &mut State,
    links: &mut [PrincipalLink],
    grants: &mut [TagLink],
    store: &mut [u8],
    frame: &[u8],
    answer: &mut [u8],
) -> Reply
    ensures value { result ≡ reply_in (over_records s.old links.old grants.old store.old frame.now answer.old).replied }
    ensures s_after { s.new ≡ (over_records s.old links.old grants.old store.old frame.now answer.old).replied.state }
    ensures links_after { links.new ≡ map principal_link (over_records s.old links.old grants.old store.old frame.now answer.old).links }
    ensures grants_after { grants.new ≡ map tag_link (over_records s.old links.old grants.old store.old frame.now answer.old).grants }
    ensures store_after { store.new ≡ (over_records s.old links.old grants.old store.old frame.now answer.old).store }
    ensures answer_after { answer.new ≡ (over_records s.old links.old grants.old store.old frame.now answer.old).answer }
{
    numbered(links);
    numbered(grants);
    let numbers = numbers_of(links);
    let tag_numbers = numbers_of(grants);
    let n = whole_places(links.len());
    let k = whole_places(grants.len());
    let used = counts_of(s);
    let told = reply(s, &numbers[..n], &tag_numbers[..k], store, frame, answer);
    put_back(links, used.links, told.links);
    put_back(grants, used.grants, told.grants);
    Reply {
        status: told.status,
        written: told.written,
    }
}

// The two lists of a caller that holds them itself.
#[derive(Clone, Copy)]
pub struct Lists {
    pub links: [PrincipalLink; 256],
    pub grants: [TagLink; 256],
}

// "The fresh state has .. no links".
pub fn no_links() -> Lists
    ensures { result ≡ no_links }
{
    let links = [PrincipalLink::link_of(0); 256];
    let grants = [TagLink::link_of(0); 256];
    Lists { links, grants }
}
