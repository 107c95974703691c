// What a host in C or Rust calls. The state crosses as a struct behind a pointer, a list or a buffer as a pointer
// and a length, and nothing is asked of what stands in them: each function answers whatever it is lent.
#![tactic(auto)]

ghost use Rattle.std.specs.Prelude.{◌≡◌, map};
ghost use Rattle.store.specs.Store.{over};
ghost use Rattle.records.specs.Records.{principal_link, tag_link, cleared as cleared_links};
ghost use Rattle.state.specs.Start.{started, zeroed, cleared};
ghost use Rattle.entry.specs.Entry.{over_records, reply_in};
ghost use Rattle.session.specs.Run.{ran, ran_session, ran_bytes};
ghost use Rattle.suvdorkhun_c.specs.Listing.{listed};
ghost use Rattle.suvdorkhun_c.specs.Size.{state_size};

use entry::{Reply, request};
use lent::forget;
use records::{PrincipalLink, TagLink};
use session::run;
use state::{State, start};

// How many bytes a State has.
const STATE_SIZE: usize = 3704;

// What a list of lines gives back: 0, or 11 at a start that was refused; 1 where all of it was answered, else 0;
// how much was read and written.
#[repr(C)]
#[derive(Clone, Copy)]
pub struct Listed {
    pub status: u8,
    pub complete: u8,
    pub read: usize,
    pub written: usize,
}

// The fresh state with this memory size; the lent lists and store become zero, whatever their lengths. 0, or 11
// where the size is over 64, and the size is then 0.
#[unsafe(no_mangle)]
pub extern "C" fn suvdorkhun_start(
    state: &mut State,
    links: &mut [PrincipalLink],
    grants: &mut [TagLink],
    store: &mut [u8],
    size: usize,
) -> u8
    ensures value { result ≡ (started size).status }
    ensures state_after { state.new ≡ (started size).state }
    ensures links_after { links.new ≡ cleared_links (principal_link 0) links.old }
    ensures grants_after { grants.new ≡ cleared_links (tag_link 0) grants.old }
    ensures store_after { store.new ≡ zeroed store.old }
{
    records::clear(links);
    records::clear(grants);
    let first = start(size, store);
    *state = first.state;
    first.status
}

// One request.
#[unsafe(no_mangle)]
pub extern "C" fn suvdorkhun_request(
    state: &mut State,
    links: &mut [PrincipalLink],
    grants: &mut [TagLink],
    store: &mut [u8],
    frame: &[u8],
    answer: &mut [u8],
) -> Reply
    ensures value { result ≡ reply_in (over_records state.old links.old grants.old store.old frame.now answer.old).replied }
    ensures state_after { state.new ≡ (over_records state.old links.old grants.old store.old frame.now answer.old).replied.state }
    ensures links_after { links.new ≡ map principal_link (over_records state.old links.old grants.old store.old frame.now answer.old).links }
    ensures grants_after { grants.new ≡ map tag_link (over_records state.old links.old grants.old store.old frame.now answer.old).grants }
    ensures store_after { store.new ≡ (over_records state.old links.old grants.old store.old frame.now answer.old).store }
    ensures answer_after { answer.new ≡ (over_records state.old links.old grants.old store.old frame.now answer.old).answer }
{
    request(state, links, grants, store, frame, answer)
}

// "The host may clear the memory between requests; this leaves the counters."
#[unsafe(no_mangle)]
pub extern "C" fn suvdorkhun_clear(state: &mut State)
    ensures { state.new ≡ cleared state.old }
{
    forget(state);
}

// A whole list of lines from the fresh state with this memory size.
#[unsafe(no_mangle)]
pub extern "C" fn suvdorkhun_run(
    size: usize,
    store: &mut [u8],
    input: &[u8],
    out: &mut [u8],
) -> Listed
    ensures value { result ≡ listed (ran size store.old input.now out.old) }
    ensures store_after { store.new ≡ (ran_session size store.old input.now out.old).store }
    ensures out_after { out.new ≡ over out.old 0 (ran_bytes size store.old input.now out.old) }
{
    let r = run(size, store, input, out);
    Listed {
        status: r.status,
        complete: u8::from(r.complete),
        read: r.read,
        written: r.written,
    }
}

// How many bytes a State has, so that a host can see that its own declaration has as many.
#[unsafe(no_mangle)]
pub extern "C" fn suvdorkhun_state_size() -> usize
    ensures { result ≡ state_size }
{
    STATE_SIZE
}
