// The calls on a lent row of task records: start fills it, begin and step take one record out, lend it and put it back.
#![tactic(auto)]

ghost use Rattle.std.specs.Prelude.{◌≡◌, ◌<◌, ◌≤◌, length};
ghost use Rattle.records.specs.Record.{idle_task};
ghost use Rattle.stepping.specs.Call.{idle_row, start_of, begin_task, begin_of, step_task, step_of};

use records::record;
use records::record::Task;
use refusal::Refusal;
use stepping::answer::Progress;
use stepping::call;

// Makes every record of a row that of an idle task, whose priority is its own place.
#[tactic(auto, using(crate::proofs::Starts::filled_none, crate::proofs::Starts::filled_more, crate::proofs::Starts::filled_whole))]
fn fill_row(row: &mut [Task])
    requires { length row.old ≤ 8 }
    ensures { row.new ≡ idle_row (length row.old) }
{
    for (place, own) in row.iter_mut().enumerate() {
        *own = record::idle_task(place as u16);
    }
}

// Starts a run: fills the cells with the image of the start state, and every record with an idle task.
#[tactic(auto, using(crate::proofs::Starts::few_records, crate::proofs::Starts::start_refused, crate::proofs::Starts::start_accepted))]
pub fn start(file: &[u8], cells: &mut [u64], row: &mut [Task]) -> Result<(), Refusal>
    ensures { record { cells = cells.new; row = row.new; answer = result } ≡ start_of file.now cells.old row.old }
{
    let state = call::admit_start(file, cells.len(), row.len())?;
    cells::image::fill_image(cells, state);
    fill_row(row);
    Ok(())
}

// Begins an operation for a task whose record is lent.
pub fn begin_record(
    file: &[u8],
    tasks: usize,
    task: usize,
    operation: usize,
    own: &mut Task,
) -> Result<(), Refusal>
    ensures { record { task = own.new; answer = result } ≡ begin_task file.now tasks task operation own.old }
{
    *own = call::begin_task(file, tasks, task, operation, *own)?;
    Ok(())
}

// Makes one step for a task whose record is lent.
pub fn step_record(
    file: &[u8],
    cells: &mut [u64],
    tasks: usize,
    task: usize,
    own: &mut Task,
) -> Result<Progress, Refusal>
    ensures { record { cells = cells.new; task = own.new; answer = result } ≡ step_task file.now cells.old tasks task own.old }
{
    let stepped = call::step_task(file, cells, tasks, task, *own)?;
    *own = stepped.task;
    Ok(stepped.progress)
}

// Begins an operation for the task at a place of the row: its record is taken out, lent and put back.
fn begin_in(file: &[u8], row: &mut [Task], index: usize, operation: usize) -> Result<(), Refusal>
    requires { index < length row.old }
    ensures { record { row = row.new; answer = result } ≡ begin_of file.now row.old index operation }
{
    let tasks = row.len();
    let mut own = row[index];
    let answer = begin_record(file, tasks, index, operation, &mut own);
    row[index] = own;
    answer
}

// What a begin answers for a task that has no record in the row.
fn begin_past(file: &[u8], tasks: usize, task: usize, operation: usize) -> Result<(), Refusal>
    ensures { result ≡ (begin_task file.now tasks task operation (idle_task 0)).answer }
{
    let mut past = record::idle_task(0);
    begin_record(file, tasks, task, operation, &mut past)
}

// Begins an operation for a task.
#[tactic(auto, using(crate::proofs::Calls::begin_past))]
pub fn begin(file: &[u8], row: &mut [Task], task: usize, operation: usize) -> Result<(), Refusal>
    ensures { record { row = row.new; answer = result } ≡ begin_of file.now row.old task operation }
{
    let tasks = row.len();
    if tasks <= task {
        return begin_past(file, tasks, task, operation);
    }
    begin_in(file, row, task, operation)
}

// Makes one step for the task at a place of the row: its record is taken out, lent and put back.
fn step_in(
    file: &[u8],
    cells: &mut [u64],
    row: &mut [Task],
    index: usize,
) -> Result<Progress, Refusal>
    requires { index < length row.old }
    ensures { record { cells = cells.new; row = row.new; answer = result } ≡ step_of file.now cells.old row.old index }
{
    let tasks = row.len();
    let mut own = row[index];
    let answer = step_record(file, cells, tasks, index, &mut own);
    row[index] = own;
    answer
}

// What a step answers for a task that has no record in the row; the cells stay as they were.
fn step_past(file: &[u8], cells: &mut [u64], tasks: usize, task: usize) -> Result<Progress, Refusal>
    ensures { (cells.new ≡ (step_task file.now cells.old tasks task (idle_task 0)).cells) × (result ≡ (step_task file.now cells.old tasks task (idle_task 0)).answer) }
{
    let mut past = record::idle_task(0);
    step_record(file, cells, tasks, task, &mut past)
}

// Makes one step for a task.
pub fn step(
    file: &[u8],
    cells: &mut [u64],
    row: &mut [Task],
    task: usize,
) -> Result<Progress, Refusal>
    ensures { record { cells = cells.new; row = row.new; answer = result } ≡ step_of file.now cells.old row.old task }
{
    let tasks = row.len();
    if tasks <= task {
        return step_past(file, cells, tasks, task);
    }
    step_in(file, cells, row, task)
}
