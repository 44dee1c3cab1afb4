// The calls of the register window of docs/FORMATS.md: one takes the command that stands in a task's eight bytes, makes the
// begin or step that it asks for, and leaves there what the console reads; the other tells the interrupt line.
#![tactic(auto)]

ghost use Rattle.std.specs.Prelude.{◌≡◌, ◌+◌, ◌*◌, ◌<◌, cond, length, Ok, Err};
ghost use Rattle.stepping.specs.Call.{begin_of, step_of};
ghost use Rattle.window.specs.Window.{byte_at, status_at, place_of};
ghost use Rattle.window.specs.Written.{after_begin, after_step};
ghost use Rattle.window.specs.Serve.{window_of, begun_answer, stepped_answer};
ghost use Rattle.window.specs.Line.{line_of};

use records::record::Task;
use refusal::Refusal;
use window::LineLevel;
use write::{BYTES, COMMAND, INTERRUPT, MASK, Window};

mod status;
mod write;

// The tests of every call on windows: 18 unless there are eight bytes for each task, then 7.
fn find_window(windows: &[u8], tasks: usize, task: usize) -> Result<(), Refusal>
    ensures { (result ≡ place_of windows.now tasks task) × (result ≡ Ok tt → 8 * task + 7 < length windows.now) }
{
    if windows.len() % BYTES != 0 || windows.len() / BYTES != tasks {
        return Err(Refusal::Window);
    }
    if tasks <= task {
        return Err(Refusal::Task);
    }
    Ok(())
}

// The begin that a window asks for: none is made while done stands there.
fn begin_asked(file: &[u8], row: &mut [Task], task: usize, window: &Window) -> Result<(), Refusal>
    ensures { let done = (status_at window.now 0).done in let out = begin_of file.now row.old task (byte_at window.now 0 0) in (row.new ≡ cond done row.old out.row) × (result ≡ cond done (Err Refusal.Unacknowledged) out.answer) }
{
    let operation = write::asked_operation(window)?;
    drive::begin(file, row, task, operation)
}

// A begin by a window, of the operation that stands in it.
fn begin_by_window(
    file: &[u8],
    row: &mut [Task],
    task: usize,
    window: &mut Window,
) -> Result<(), Refusal>
    ensures { let done = (status_at window.old 0).done in let out = begin_of file.now row.old task (byte_at window.old 0 0) in let answer = cond done (Err Refusal.Unacknowledged) out.answer in (row.new ≡ cond done row.old out.row) × (window.new ≡ after_begin window.old 0 answer) × (result ≡ begun_answer answer) }
{
    let answer = begin_asked(file, row, task, window);
    write::after_begin(window, answer)
}

// A step by a window.
fn step_by_window(
    file: &[u8],
    cells: &mut [u64],
    row: &mut [Task],
    task: usize,
    window: &mut Window,
) -> Result<(), Refusal>
    ensures { let out = step_of file.now cells.old row.old task in (cells.new ≡ out.cells) × (row.new ≡ out.row) × (window.new ≡ after_step window.old 0 out.answer) × (result ≡ stepped_answer out.answer) }
{
    let answer = drive::step(file, cells, row, task);
    write::after_step(window, answer)
}

// Takes the command in a task's window, makes the begin or step that it asks for, and leaves in the window what the
// console reads.
#[tactic(auto, using(window::proofs::Lent::lent, window::proofs::Served::turned_away, window::proofs::Served::served_nothing, window::proofs::Served::served_begin_command, window::proofs::Served::served_step, window::proofs::Served::served_acknowledged, window::proofs::Served::served_unknown))]
pub fn serve_window(
    file: &[u8],
    cells: &mut [u64],
    row: &mut [Task],
    windows: &mut [u8],
    task: usize,
) -> Result<(), Refusal>
    ensures { record { cells = cells.new; row = row.new; windows = windows.new; answer = result } ≡ window_of file.now cells.old row.old windows.old task }
{
    find_window(windows, row.len(), task)?;
    let (_, rest) = windows.split_at_mut(BYTES * task);
    let window = rest.first_chunk_mut().unwrap();
    match window[COMMAND] {
        0 => Ok(()),
        1 => begin_by_window(file, row, task, window),
        2 => step_by_window(file, cells, row, task, window),
        3 => {
            write::acknowledged(window);
            Ok(())
        }
        _ => write::refuse(window, Refusal::Window),
    }
}

// The interrupt line of a task: up while an interrupt waits and isn't masked.
#[tactic(auto, unfolding(window::specs::Line::line_of))]
pub fn line(windows: &[u8], tasks: usize, task: usize) -> Result<LineLevel, Refusal>
    ensures { result ≡ line_of windows.now tasks task }
{
    find_window(windows, tasks, task)?;
    let waits = status::on(windows[BYTES * task + INTERRUPT]);
    let masked = status::on(windows[BYTES * task + MASK]);
    if waits && !masked {
        Ok(LineLevel::Up)
    } else {
        Ok(LineLevel::Down)
    }
}
