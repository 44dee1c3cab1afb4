// What a served line is answered with, and the lines that are printed.
ghost use Rattle.std.specs.Prelude.{◌≡◌, ◌≤◌, length, take};
ghost use Rattle.bench_lines.specs.Line.{number_line, reply_line, most_cells, cells_line, line_bytes};

use crate::text;
pub use crate::text::Text;
use crate::text::{Base, Draft};
use refusal::Refusal;

// An accepted begin and a step that answers running print nothing.
#[derive(Clone, Copy)]
pub enum Reply {
    Silent,
    Started {
        tasks: u16,
        states: u16,
        operations: u16,
    },
    Ended {
        task: u16,
        response: u16,
        moved: bool,
    },
}

const MOST_CELLS: usize = 9;

const NEWLINE: u8 = 10;

// A letter and numbers in decimal.
fn number_line(letter: u8, values: &[u64]) -> Text
    requires { length values.now ≤ 3 }
    ensures { line_bytes result ≡ number_line letter values.now }
{
    let mut line = Draft::new();
    line.push(letter);
    text::put_fields(&mut line, Base::Decimal, values);
    line.push(NEWLINE);
    text::finished(&line)
}

// The line of a reply or of a refusal; a silent reply has no bytes.
pub fn reply_line(reply: Result<Reply, Refusal>) -> Text
    ensures { line_bytes result ≡ reply_line reply }
{
    match reply {
        Ok(Reply::Silent) => Text::new(),
        Ok(
            Reply::Started {
                tasks,
                states,
                operations,
            },
        ) => number_line(b'n', &[tasks, states, operations].map(u64::from)),
        Ok(
            Reply::Ended {
                task,
                response,
                moved,
            },
        ) => number_line(b'r', &[task, response, u16::from(moved)].map(u64::from)),
        Err(cause) => number_line(b'x', &[u64::from(u8::from(cause))]),
    }
}

// The line of the cells, of which a run has at most nine: the cells in hex digits, and how many marks are set in them.
#[tactic(auto, unfolding(crate::specs::Line::cells_line))]
pub fn cells_line(cells: &[u64]) -> Text
    ensures { line_bytes result ≡ cells_line (take most_cells cells.now) }
{
    let shown = &cells[..cells.len().min(MOST_CELLS)];
    let mut line = Draft::new();
    line.push(b'm');
    text::put_fields(&mut line, Base::Hexadecimal, shown);
    text::put_field(&mut line, Base::Decimal, cells::count::count_marks(shown));
    line.push(NEWLINE);
    text::finished(&line)
}
