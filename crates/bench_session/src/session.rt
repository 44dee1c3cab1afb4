// The table and the input byte by byte: lines are cut at byte 10, and served. Each text that is to be printed is returned.
ghost use Rattle.std.specs.Prelude.{◌≡◌, List, [], ◌∷◌, ◌++◌, ℕ};
ghost use Rattle.table.specs.Check.{check_of};
ghost use Rattle.bench_lines.specs.Command.{command_of};
ghost use Rattle.bench_lines.specs.Line.{line_bytes};
ghost use Rattle.bench_session.specs.Session.{Fed, Holds, Follows, Yields, Reports, new_session, end_line, feed_byte, finish_text};

use crate::run;
use crate::run::Bench;
use bench_lines::command::Command;
use bench_lines::text::Text;
use bench_lines::{command, line, reply};

const NEWLINE: u8 = 10;

const LONGEST_LINE: usize = 64;

// The bytes of a line that isn't too long.
pub type Line = line::Line<LONGEST_LINE>;

// The bench, and the line that is being read; `None` stands for every line that is too long.
#[derive(Clone, Copy)]
pub struct Session {
    pub bench: Bench,
    pub line: Option<Line>,
}

// The table is tested before the first line; of one that is not served the number alone is printed.
pub(crate) fn test_table(file: &[u8]) -> Result<(), Text>
    ensures { Reports result (check_of file.now) }
{
    match table::check(file) {
        Ok(_) => Ok(()),
        Err(cause) => Err(reply::reply_line(Err(cause))),
    }
}

// The session before the first byte.
pub(crate) fn begin() -> Session
    ensures { Follows new_session result }
{
    Session {
        bench: run::unstarted(),
        line: Some(Line::new()),
    }
}

// The meaning of the line that is held.
#[tactic(auto, using(crate::proofs::Held::long_command))]
fn held_command(line: &Option<Line>) -> Command
    ensures { (bytes : List ℕ) → Holds bytes line.now → result ≡ command_of bytes }
{
    match line {
        Some(bytes) => command::parse(bytes.as_slice()),
        None => Command::Unknown,
    }
}

// The line has come to its end, and is served.
fn end_line(file: &[u8], session: &mut Session) -> Text
    ensures { (fed : Fed) → Follows fed session.old → Yields session.new result (end_line file.now fed) }
{
    let command = held_command(&session.line);
    session.line = Some(Line::new());
    run::serve(file, &mut session.bench, command)
}

// The line with one byte more. One that is too long stays so.
#[tactic(auto, using(crate::proofs::Held::hold_long))]
fn longer(line: Option<Line>, byte: u8) -> Option<Line>
    ensures { (bytes : List ℕ) → Holds bytes line → Holds (bytes ++ (byte ∷ [])) result }
{
    let mut bytes = line?;
    bytes.try_push(byte).ok()?;
    Some(bytes)
}

// One byte of the input. Byte 10 ends a line, which is served.
#[tactic(auto, using(crate::proofs::Feeds::yields_as, crate::proofs::Feeds::feed_newline))]
pub(crate) fn take_in(file: &[u8], session: &mut Session, byte: u8) -> Text
    ensures { (fed : Fed) → Follows fed session.old → Yields session.new result (feed_byte file.now fed byte) }
{
    if byte == NEWLINE {
        return end_line(file, session);
    }
    session.line = longer(session.line, byte);
    Text::new()
}

// The end of the input. A line that is not empty is served.
#[tactic(auto, using(crate::proofs::Ends::none_held, crate::proofs::Ends::some_held))]
pub(crate) fn finish(file: &[u8], session: &mut Session) -> Text
    ensures { (fed : Fed) → Follows fed session.old → line_bytes result ≡ finish_text file.now fed }
{
    if let Some(line) = &session.line
        && line.as_slice().is_empty()
    {
        return Text::new();
    }
    end_line(file, session)
}
