// The run that lines are served on.
ghost use Rattle.std.specs.Prelude.{◌≡◌, ◌≤◌};
ghost use Rattle.bench_lines.specs.Line.{line_bytes};
ghost use Rattle.bench_session.specs.Run.{unstarted_bench, cell_count, start_bench, begin_reply, begin_bench, step_reply, step_bench, runs_on, finish_bench, cells_printed, act_of, is_start, serve_command};

use bench_lines::command::Command;
use bench_lines::reply;
use bench_lines::reply::Reply;
use bench_lines::text::Text;
use cells::ceiling;
use records::record;
use records::record::Task;
use refusal::Refusal;
use stepping::answer::Progress;

// As many cells as the greatest run has, and as many records: one more, so that a row of nine can be lent and is refused.
const MOST_CELLS: usize = 9;

// The greatest ceiling of own steps. After a first step and as many more, an operation has ended or its step is refused.
const MOST_TURNS: u32 = ceiling::GREATEST;

// The cells and the records of the run are the first ones. Without an accepted start there are 0 tasks.
#[derive(Clone, Copy)]
pub struct Bench {
    pub cells: [u64; 9],
    pub row: [Task; 9],
    pub tasks: usize,
}

// The bench before the first line.
pub fn unstarted() -> Bench
    ensures { result ≡ unstarted_bench }
{
    Bench {
        cells: [0; 9],
        row: [record::idle_task(0); 9],
        tasks: 0,
    }
}

// How many cells are lent for a number of tasks.
fn cell_count(tasks: usize) -> usize
    ensures { (result ≡ cell_count tasks) × (result ≤ 9) }
{
    tasks.min(MOST_CELLS - 1) + 1
}

// Starts a run on the first of the cells and of the records. A refused start leaves the present run as it is.
#[tactic(auto, unfolding(crate::specs::Run::start_bench, crate::specs::Run::start_held))]
fn start(file: &[u8], bench: &mut Bench, tasks: u16) -> Result<Reply, Refusal>
    ensures { record { bench = bench.new; reply = result } ≡ start_bench file.now bench.old tasks }
{
    let count = usize::from(tasks);
    let lent = cell_count(count);
    let mut cells = bench.cells;
    let answer = bench_row::start_first(file, &mut cells[..lent], &mut bench.row, count);
    bench.cells = cells;
    answer?;
    bench.tasks = count;
    let shape = table::read_shape(file);
    Ok(Reply::Started {
        tasks,
        states: shape.states,
        operations: shape.operations,
    })
}

// An accepted begin prints nothing.
#[tactic(auto, unfolding(crate::specs::Run::begin_bench))]
fn begin(file: &[u8], bench: &mut Bench, task: u16, operation: u16) -> Result<Reply, Refusal>
    ensures { record { bench = bench.new; reply = result } ≡ begin_bench file.now bench.old task operation }
{
    let tasks = bench.tasks;
    bench_row::begin_first(
        file,
        &mut bench.row,
        tasks,
        usize::from(task),
        usize::from(operation),
    )?;
    Ok(Reply::Silent)
}

// A step that answers running prints nothing.
fn step_reply(task: u16, answer: Result<Progress, Refusal>) -> Result<Reply, Refusal>
    ensures { result ≡ step_reply task answer }
{
    match answer? {
        Progress::Running => Ok(Reply::Silent),
        Progress::Ended {
            response,
            moved,
            steps: _,
        } => Ok(Reply::Ended {
            task,
            response,
            moved,
        }),
    }
}

// Makes a step on the first of the cells and of the records.
#[tactic(auto, unfolding(crate::specs::Run::step_bench, crate::specs::Run::step_held))]
fn step(file: &[u8], bench: &mut Bench, task: u16) -> Result<Reply, Refusal>
    ensures { record { bench = bench.new; reply = result } ≡ step_bench file.now bench.old task }
{
    let tasks = bench.tasks;
    let lent = cell_count(tasks);
    let mut cells = bench.cells;
    let answer = bench_row::step_first(
        file,
        &mut cells[..lent],
        &mut bench.row,
        tasks,
        usize::from(task),
    );
    bench.cells = cells;
    step_reply(task, answer)
}

// Whether a step has answered running.
fn runs_on(reply: Result<Reply, Refusal>) -> bool
    ensures { result ≡ runs_on reply }
{
    matches!(reply, Ok(Reply::Silent))
}

// Steps until the task's operation has ended, or a step is refused.
#[tactic(auto, using(crate::proofs::Runs::finish_more, crate::proofs::Runs::finish_last, crate::proofs::Runs::finish_none, crate::proofs::Runs::most_turns_lem))]
fn finish(file: &[u8], bench: &mut Bench, task: u16) -> Result<Reply, Refusal>
    ensures { record { bench = bench.new; reply = result } ≡ finish_bench file.now bench.old task }
{
    let mut reply = step(file, bench, task);
    for _turn in 0..MOST_TURNS {
        if !runs_on(reply) {
            break;
        }
        reply = step(file, bench, task);
    }
    reply
}

// The line of the run's cells.
fn held_line(bench: &Bench) -> Text
    ensures { line_bytes result ≡ (cells_printed bench.now).text }
{
    let count = cell_count(bench.tasks);
    reply::cells_line(&bench.cells[..count])
}

// Serves a command, with a run for every other one than a start.
fn act(file: &[u8], bench: &mut Bench, command: Command) -> Text
    ensures { record { bench = bench.new; text = line_bytes result } ≡ act_of file.now bench.old command }
{
    let reply = match command {
        Command::Start { tasks } => start(file, bench, tasks),
        Command::Begin { task, operation } => begin(file, bench, task, operation),
        Command::Step { task } => step(file, bench, task),
        Command::Finish { task } => finish(file, bench, task),
        Command::Print => return held_line(bench),
        Command::Unknown => Err(Refusal::Line),
    };
    reply::reply_line(reply)
}

fn is_start(command: Command) -> bool
    ensures { result ≡ is_start command }
{
    matches!(command, Command::Start { .. })
}

// Serves a command. Before an accepted start every other one is refused.
#[tactic(auto, unfolding(crate::specs::Run::serve_command))]
pub fn serve(file: &[u8], bench: &mut Bench, command: Command) -> Text
    ensures { record { bench = bench.new; text = line_bytes result } ≡ serve_command file.now bench.old command }
{
    if bench.tasks == 0 && !is_start(command) {
        return reply::reply_line(Err(Refusal::Line));
    }
    act(file, bench, command)
}
