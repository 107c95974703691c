// The line program (01, "Lines"): M = 8, standard input to standard output, one answer a line, and last FF,
// questions, hits. Of the input it keeps one block and, in the session, the line in the making, however long the input
// and its lines are; what a block gives is written before the next is read. A read or a write that fails is told on
// standard error and ends it.
#![tactic(auto)]

ghost use Rattle.std.specs.Prelude.{◌≡◌, ◌⊎◌, ◌≤◌, ◌<◌, IfOk, length};

use session::Session;
use state::start;
use std::io::{self, Read, Stdin, Stdout};

// "The line program has M = 8"
const MEMORY: usize = 8;

// Writes the bytes, all of them, or fails.
fn write_out(stdout: Stdout, out: &[u8]) -> io::Result<()> {
    stdout.write_all(out)
}

// Answers as much of a piece as the output buffer has room for: at least its first byte. How much that is.
fn serve_piece(
    stdout: Stdout,
    session: &mut Session,
    store: &mut [u8],
    piece: &[u8],
) -> io::Result<usize>
    ensures read_in_bounds { IfOk result (λ n. n ≤ length piece.now) }
    ensures piece_len { IfOk result (λ n. length piece.now ≡ 0 ⊎ 0 < n) }
{
    let mut out = [0; 65536];
    let fed = session.feed(store, piece, &mut out);
    write_out(stdout, &out[..fed.written])?;
    Ok(fed.read)
}

// Answers a block, in as many pieces as the output buffer needs.
fn serve_block(
    stdout: Stdout,
    session: &mut Session,
    store: &mut [u8],
    block: &[u8],
) -> io::Result<()> {
    let mut rest = block;
    while !rest.is_empty() {
        let n = serve_piece(stdout, session, store, rest)?;
        rest = &rest[n..];
    }
    Ok(())
}

// Reads once and answers what came: how much that is.
fn serve_some(
    mut stdin: Stdin,
    stdout: Stdout,
    session: &mut Session,
    store: &mut [u8],
) -> io::Result<usize> {
    let mut block = [0; 65536];
    let n = stdin.read(&mut block)?;
    serve_block(stdout, session, store, &block[..n])?;
    Ok(n)
}

// A proved loop has to end, and nothing says that the input does. So the loop has a number of turns that no run uses
// up.
fn serve(stdin: Stdin, stdout: Stdout, session: &mut Session, store: &mut [u8]) -> io::Result<()> {
    for _ in 0..u64::MAX {
        if serve_some(stdin, stdout, session, store)? == 0 {
            break;
        }
    }
    let mut out = [0; 4096];
    let written = session.finish(store, &mut out, 0).unwrap_or(0);
    write_out(stdout, &out[..written])
}

fn main(rt: HostRuntime) -> io::Result<()> {
    let mut store = [0u8; 16896];
    let mut session = Session::new(start(MEMORY, &mut store).state);
    serve(rt.stdin(), rt.stdout(), &mut session, &mut store)
}
