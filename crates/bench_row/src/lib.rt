// The calls for a holder of nine records: the first of them are lent as a row.
#![tactic(auto)]

ghost use Rattle.std.specs.Prelude.{◌≡◌};
ghost use Rattle.bench_row.specs.First.{first_count, start_first, begin_first, step_first};

use records::record::Task;
use refusal::Refusal;
use stepping::answer::Progress;

// The most records that are lent; a row of nine is refused as a longer one is.
const MOST: usize = 9;

// How many records are lent for a number of tasks.
fn first_count(tasks: usize) -> usize
    ensures { result ≡ first_count tasks }
{
    tasks.min(MOST)
}

// Starts a run for a number of tasks, with the first of the records.
#[tactic(auto, unfolding(crate::specs::First::start_first))]
pub fn start_first(
    file: &[u8],
    cells: &mut [u64],
    row: &mut [Task; 9],
    tasks: usize,
) -> Result<(), Refusal>
    ensures { record { cells = cells.new; row = row.new; answer = result } ≡ start_first file.now cells.old row.old tasks }
{
    drive::start(file, cells, &mut row[..first_count(tasks)])
}

// Begins an operation for a task, with the first of the records.
#[tactic(auto, unfolding(crate::specs::First::begin_first))]
pub fn begin_first(
    file: &[u8],
    row: &mut [Task; 9],
    tasks: usize,
    task: usize,
    operation: usize,
) -> Result<(), Refusal>
    ensures { record { row = row.new; answer = result } ≡ begin_first file.now row.old tasks task operation }
{
    drive::begin(file, &mut row[..first_count(tasks)], task, operation)
}

// Makes one step for a task, with the first of the records.
#[tactic(auto, unfolding(crate::specs::First::step_first))]
pub fn step_first(
    file: &[u8],
    cells: &mut [u64],
    row: &mut [Task; 9],
    tasks: usize,
    task: usize,
) -> Result<Progress, Refusal>
    ensures { record { cells = cells.new; row = row.new; answer = result } ≡ step_first file.now cells.old row.old tasks task }
{
    drive::step(file, cells, &mut row[..first_count(tasks)], task)
}
