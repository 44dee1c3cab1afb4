// What the bench reads and writes: the table and the input are read, and the texts are printed in their order.
ghost use Rattle.io.specs.Counts.{IsPrefixLen};
ghost use Rattle.bench_session.specs.Session.{Fed, Follows, Continues, Ended, new_session, feed};

use crate::session::Session;
use crate::{output, session};
use std::fs::File;
use std::io;
use std::io::Read;
use std::rt::Files;

// Nothing says that an input ends, so the reads are counted. No input reaches this number of them.
const MOST_READS: u64 = u64::MAX;

// A part of the input, byte by byte.
#[tactic(auto, using(crate::proofs::Feeds::feed_none))]
fn take_all<P: Print>(rt: &P, file: &[u8], session: &mut Session, bytes: &[u8])
    ensures { (fed : Fed) → Follows fed session.old → Follows (feed file.now fed bytes.now).fed session.new }
{
    for byte in bytes {
        let text = session::take_in(file, session, *byte);
        output::print(rt, &text);
    }
}

// One read of the input: whether it gave a byte, so that there may be more. An error counts as the end.
fn read_part<R: Read, P: Print>(reader: &mut R, rt: &P, file: &[u8], session: &mut Session) -> bool
    ensures { Continues file.now session.old session.new result }
{
    let mut buffer = [0; 4096];
    let count = reading::read_some(reader, &mut buffer);
    take_all(rt, file, session, &buffer[..count]);
    count > 0
}

// The input to its end, and the number of its reads: the first read that gives no byte is the last. `Err` stands for an
// input that goes on after all reads.
#[tactic(auto, using(crate::proofs::Feeds::reached_none, crate::proofs::Feeds::most_reads_lem))]
fn read_all<R: Read, P: Print>(
    reader: &mut R,
    rt: &P,
    file: &[u8],
    session: &mut Session,
) -> Result<u64, u64>
    requires { Follows new_session session.old }
    ensures { Ended file.now session.new result }
{
    for read in 0..MOST_READS {
        if !read_part(reader, rt, file, session) {
            return Ok(read + 1);
        }
    }
    Err(MOST_READS)
}

// The table is tested first. Without one that is served no line is read.
fn serve_file<H: io::Input + Print>(rt: &H, file: &[u8]) {
    if let Err(text) = session::test_table(file) {
        output::print(rt, &text);
        return;
    }
    let mut session = session::begin();
    let mut reader = rt.reader();
    let _ = read_all(&mut reader, rt, file, &mut session);
    let text = session::finish(file, &mut session);
    output::print(rt, &text);
}

// The file table.bin. One that can't be opened counts as one without bytes.
fn read_table<H: Files>(rt: &H, room: &mut [u8]) -> usize
    ensures { IsPrefixLen result room.new }
{
    let Ok(mut table) = File::open(rt, "table.bin") else {
        return 0;
    };
    reading::read_full(&mut table, room)
}

// The bench program. One byte more than the longest file is room enough to see that a file is too long.
pub fn serve_all<H: Files + io::Input + Print>(rt: &H) {
    let mut room = [0; table::LONGEST_FILE + 1];
    let len = read_table(rt, &mut room);
    serve_file(rt, &room[..len]);
}
