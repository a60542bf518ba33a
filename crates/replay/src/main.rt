// Replays stored answers of the Rust: data/answers.words has word lists, the lengths of the slices to lend, and what the Rust made of
// each list, put as document 01 puts it (oracle/replay.py wrote it, and says how). Each list is decoded by the library into tables
// that held other words before; the answer and every word of all nine tables are held to the stored ones. The decoded tables are
// written (document 02, R-1), and these words held to stored ones (oracle/written.py). A summary is printed.

#![tactic(auto)]

mod compare;
mod replaying;
mod stored;
mod tally;
mod written;

use std::io;
use std::io::Read;
use std::rt::Files;
use tally::Tally;

// The bytes of one block, as words.
fn replay_bytes(
    rt: &(impl Print + AllocGlobal),
    tally: &mut Tally,
    bytes: &[u8],
) -> io::Result<()> {
    let mut list = [0i32; 65536];
    let n = loading::words_of(bytes, &mut list);
    replaying::replay_block(rt, tally, &list[..n])
}

// One block of the file; whether there was one.
fn replay_next(
    rt: &(impl Print + AllocGlobal),
    tally: &mut Tally,
    from: &mut impl Read,
) -> io::Result<bool> {
    let mut bytes = [0u8; 262144];
    let n = loading::files::read_full(from, &mut bytes)?;
    replay_bytes(rt, tally, &bytes[..n])?;
    Ok(n > 0)
}

// Nothing says that a file ends, so that the blocks are counted, up to more than there are.
fn replay_file(
    rt: &(impl Print + AllocGlobal),
    tally: &mut Tally,
    from: &mut impl Read,
) -> io::Result<()> {
    for _ in 0..1000 {
        if !replay_next(rt, tally, from)? {
            break;
        }
    }
    Ok(())
}

fn run(rt: &(impl Print + Files + AllocGlobal)) -> io::Result<()> {
    let Some(mut file) = loading::files::open(rt, b"answers.words") else {
        return println!(rt; "answers.words is missing");
    };
    let mut tally = Tally::new();
    replay_file(rt, &mut tally, &mut file)?;
    print!(rt; "{tally}")
}

fn main(rt: HostRuntime) -> io::Result<()> {
    run(&rt)
}
