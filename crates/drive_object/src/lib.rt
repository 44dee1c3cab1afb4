// The calls for kernels in C and Rust, with those of the window, the writer, force and the ring desk: each answer is one word.
#![tactic(auto)]

ghost use Rattle.std.specs.Prelude.{◌≡◌, ◌+◌, ◌*◌};
ghost use Rattle.cells.specs.Ceiling.{ceiling_of};
ghost use Rattle.table.specs.Check.{check_of};
ghost use Rattle.stepping.specs.Call.{start_of, begin_task, begin_of, step_task, step_of};
ghost use Rattle.window.specs.Serve.{window_of};
ghost use Rattle.window.specs.Line.{line_of};
ghost use Rattle.ring_desk.specs.Owner.{owner_of};
ghost use Rattle.ring_desk.specs.Table.{table_of};
ghost use Rattle.canonical.specs.Canonical.{canonical_written};
ghost use Rattle.game.specs.Force.{force_of};
ghost use Rattle.drive_object.specs.Word.{word_of, ended_flags, refused_word, check_word, start_word, begin_word, step_word, window_word, line_word, ceiling_word, owner_word, written_word, force_word};

use cells::ceiling;
use game::Verdict;
use records::record::Task;
use refusal::Refusal;
use stepping::answer::Progress;
use table::Shape;
use window::LineLevel;

// The word of a refusal's number, of flags, and of two numbers.
fn word(cause: u8, flags: u8, low: u16, high: u32) -> u64
    ensures { result ≡ word_of cause flags low high }
{
    u64::from(cause)
        + 0x100 * u64::from(flags)
        + 0x1_0000 * u64::from(low)
        + 0x1_0000_0000 * u64::from(high)
}

// The flags of an operation that has ended: bit 0, and bit 1 if it moved the state.
#[tactic(auto, using(laws::proofs::Bits::bit_below))]
fn ended_flags(moved: bool) -> u8
    ensures { result ≡ ended_flags moved }
{
    1 + 2 * u8::from(moved)
}

// The word of a refusal.
fn refused_word(cause: Refusal) -> u64
    ensures { result ≡ refused_word cause }
{
    word(u8::from(cause), 0, 0, 0)
}

// Two numbers in the halves of one.
fn halves(low: u16, high: u16) -> u32
    ensures { result ≡ low + 65536 * high }
{
    u32::from(low) + 0x1_0000 * u32::from(high)
}

// The word of what a check of a table answers.
fn check_word(answer: Result<Shape, Refusal>) -> u64
    ensures { result ≡ check_word answer }
{
    match answer {
        Ok(shape) => { word(0, 0, shape.states, halves(shape.operations, shape.start)) }
        Err(cause) => refused_word(cause),
    }
}

// The word of what a call answers that tells nothing but that it is served: a start, a begin, a window call.
fn served_word(answer: Result<(), Refusal>) -> u64
    ensures { (result ≡ start_word answer) × (result ≡ begin_word answer) × (result ≡ window_word answer) }
{
    match answer {
        Ok(()) => word(0, 0, 0, 0),
        Err(cause) => refused_word(cause),
    }
}

// The word of what a step answers.
fn step_word(answer: Result<Progress, Refusal>) -> u64
    ensures { result ≡ step_word answer }
{
    match answer {
        Ok(Progress::Running) => word(0, 0, 0, 0),
        Ok(
            Progress::Ended {
                response,
                moved,
                steps,
            },
        ) => word(0, ended_flags(moved), response, steps),
        Err(cause) => refused_word(cause),
    }
}

// The word of an interrupt line.
fn line_word(answer: Result<LineLevel, Refusal>) -> u64
    ensures { result ≡ line_word answer }
{
    match answer {
        Ok(LineLevel::Up) => word(0, 0, 1, 0),
        Ok(LineLevel::Down) => word(0, 0, 0, 0),
        Err(cause) => refused_word(cause),
    }
}

// The word of what a call answers that tells one number: a ceiling, or the length of what was written into lent room.
fn number_word(answer: Result<u32, Refusal>) -> u64
    ensures { (result ≡ ceiling_word answer) × (result ≡ written_word answer) }
{
    match answer {
        Ok(number) => word(0, 0, 0, number),
        Err(cause) => refused_word(cause),
    }
}

// The word of an owner.
fn owner_word(answer: Result<u16, Refusal>) -> u64
    ensures { result ≡ owner_word answer }
{
    match answer {
        Ok(number) => word(0, 0, number, 0),
        Err(cause) => refused_word(cause),
    }
}

// The word of force.
fn force_word(answer: Result<Verdict, Refusal>) -> u64
    ensures { result ≡ force_word answer }
{
    match answer {
        Ok(Verdict::Reached) => word(0, 3, 0, 0),
        Ok(Verdict::Wins(operation)) => word(0, 1, operation, 0),
        Ok(Verdict::Loses) => word(0, 0, 0, 0),
        Err(cause) => refused_word(cause),
    }
}

// Checks a table.
#[unsafe(no_mangle)]
pub extern "C" fn drive_check(file: &[u8]) -> u64
    ensures { result ≡ check_word (check_of file.now) }
{
    check_word(table::check(file))
}

// The ceiling of own steps of an operation, by the number of tasks.
#[unsafe(no_mangle)]
pub extern "C" fn drive_ceiling(tasks: usize) -> u64
    ensures { result ≡ ceiling_word (ceiling_of tasks) }
{
    number_word(ceiling::ceiling_for(tasks))
}

// Writes the one file of a table's object at the room's start.
#[unsafe(no_mangle)]
pub extern "C" fn drive_canonical(file: &[u8], room: &mut [u8]) -> u64
    ensures { (room.new ≡ (canonical_written file.now room.old).room) × (result ≡ written_word (canonical_written file.now room.old).answer) }
{
    number_word(canonical::write_canonical(file, room))
}

// Whether the jack console can force a target, and by which operation it opens.
#[unsafe(no_mangle)]
pub extern "C" fn drive_force(file: &[u8], state: usize, targets: &[u8], moves: usize) -> u64
    ensures { result ≡ force_word (force_of file.now state targets.now moves) }
{
    force_word(game::force(file, state, targets, moves))
}

// Starts a run: fills the cells with the image of the start state, and every record with an idle task.
#[unsafe(no_mangle)]
pub extern "C" fn drive_start(file: &[u8], cells: &mut [u64], row: &mut [Task]) -> u64
    ensures { (cells.new ≡ (start_of file.now cells.old row.old).cells) × (row.new ≡ (start_of file.now cells.old row.old).row) × (result ≡ start_word (start_of file.now cells.old row.old).answer) }
{
    served_word(drive::start(file, cells, row))
}

// Begins an operation for a task.
#[unsafe(no_mangle)]
pub extern "C" fn drive_begin(file: &[u8], row: &mut [Task], task: usize, operation: usize) -> u64
    ensures { (row.new ≡ (begin_of file.now row.old task operation).row) × (result ≡ begin_word (begin_of file.now row.old task operation).answer) }
{
    served_word(drive::begin(file, row, task, operation))
}

// Makes one step for a task.
#[unsafe(no_mangle)]
pub extern "C" fn drive_step(file: &[u8], cells: &mut [u64], row: &mut [Task], task: usize) -> u64
    ensures { (cells.new ≡ (step_of file.now cells.old row.old task).cells) × (row.new ≡ (step_of file.now cells.old row.old task).row) × (result ≡ step_word (step_of file.now cells.old row.old task).answer) }
{
    step_word(drive::step(file, cells, row, task))
}

// Begins an operation for a task whose record is lent.
#[unsafe(no_mangle)]
pub extern "C" fn drive_begin_record(
    file: &[u8],
    tasks: usize,
    task: usize,
    operation: usize,
    own: &mut Task,
) -> u64
    ensures { (own.new ≡ (begin_task file.now tasks task operation own.old).task) × (result ≡ begin_word (begin_task file.now tasks task operation own.old).answer) }
{
    served_word(drive::begin_record(file, tasks, task, operation, own))
}

// Makes one step for a task whose record is lent.
#[unsafe(no_mangle)]
pub extern "C" fn drive_step_record(
    file: &[u8],
    cells: &mut [u64],
    tasks: usize,
    task: usize,
    own: &mut Task,
) -> u64
    ensures { (cells.new ≡ (step_task file.now cells.old tasks task own.old).cells) × (own.new ≡ (step_task file.now cells.old tasks task own.old).task) × (result ≡ step_word (step_task file.now cells.old tasks task own.old).answer) }
{
    step_word(drive::step_record(file, cells, tasks, task, own))
}

// Takes the command in a task's window, and leaves there what the console reads.
#[unsafe(no_mangle)]
pub extern "C" fn drive_window(
    file: &[u8],
    cells: &mut [u64],
    row: &mut [Task],
    windows: &mut [u8],
    task: usize,
) -> u64
    ensures { (cells.new ≡ (window_of file.now cells.old row.old windows.old task).cells) × (row.new ≡ (window_of file.now cells.old row.old windows.old task).row) × (windows.new ≡ (window_of file.now cells.old row.old windows.old task).windows) × (result ≡ window_word (window_of file.now cells.old row.old windows.old task).answer) }
{
    served_word(window_calls::serve_window(file, cells, row, windows, task))
}

// Whether the interrupt line of a task is up.
#[unsafe(no_mangle)]
pub extern "C" fn drive_window_line(windows: &[u8], tasks: usize, task: usize) -> u64
    ensures { result ≡ line_word (line_of windows.now tasks task) }
{
    line_word(window_calls::line(windows, tasks, task))
}

// Which ring owns a chainage.
#[unsafe(no_mangle)]
pub extern "C" fn desk_owner(rings: &[u32], chainage: u64) -> u64
    ensures { result ≡ owner_word (owner_of rings.now chainage) }
{
    owner_word(ring_desk::owner(rings, chainage))
}

// Writes the object table of a drive of these rings at the room's start.
#[unsafe(no_mangle)]
pub extern "C" fn desk_table(rings: &[u32], room: &mut [u8]) -> u64
    ensures { (room.new ≡ (table_of rings.now room.old).room) × (result ≡ written_word (table_of rings.now room.old).answer) }
{
    number_word(ring_desk::write_table(rings, room))
}
