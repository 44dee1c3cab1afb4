// The calls for one task, by value: the tests in their order, and what an accepted call does.
ghost use Rattle.std.specs.Prelude.{◌≡◌, cond, ◌+◌, ◌≤◌, ◌<◌, length, Ok, Err};
ghost use Rattle.cells.specs.Ceiling.{greatest_ceiling};
ghost use Rattle.reach.specs.Changing.{changing};
ghost use Rattle.records.specs.Phase.{phase_of, phase_number};
ghost use Rattle.records.specs.Record.{idle_in_form, read_record};
ghost use Rattle.transition.specs.Transition.{plan_of};
ghost use Rattle.stepping.specs.Step.{touched};
ghost use Rattle.stepping.specs.Call.{with_row, admit_of, admit_start_of, begun_task, begin_left, begin_in, begin_task, step_left, step_from, step_in, step_task};

use crate::answer::Step;
use crate::{advance, perform};
use cells::ceiling;
use records::phase::Phase;
use records::record;
use records::record::Task;
use refusal::Refusal;
use table::{Shape, Table};
use transition::{entry, next, plan};

// What the tests that all calls share find.
#[derive(Clone, Copy)]
pub struct Admission {
    // The ceiling of own steps for the number of tasks.
    pub ceiling: u32,
    // The table's shape.
    pub shape: Shape,
}

// Cause 5 on the number of records, after what the test of the file answered.
fn with_row(tasks: usize, checked: Result<Shape, Refusal>) -> Result<Admission, Refusal>
    ensures { result ≡ with_row tasks checked }
{
    let shape = checked?;
    let ceiling = ceiling::ceiling_for(tasks)?;
    Ok(Admission { ceiling, shape })
}

// The tests that begin and step share: causes 1 to 3, then 5.
#[tactic(auto, unfolding(crate::specs::Call::admit_of))]
pub fn admit(file: &[u8], tasks: usize) -> Result<Admission, Refusal>
    ensures { result ≡ admit_of file.now tasks }
{
    with_row(tasks, table::check_layout(file))
}

// The tests of start on a file, a number of cells and a number of records: causes 1 to 6. If none holds, the cells are to be
// filled with the image of the state that is answered, and the records with idle tasks.
#[tactic(auto, using(crate::proofs::Admission::admitted_ranges), unfolding(crate::specs::Call::admit_start_of))]
pub fn admit_start(file: &[u8], cells: usize, tasks: usize) -> Result<u16, Refusal>
    ensures { result ≡ admit_start_of file.now cells tasks }
{
    let admission = with_row(tasks, table::check(file))?;
    if cells != tasks + 1 {
        return Err(Refusal::Cells);
    }
    Ok(admission.shape.start)
}

// The first phase: a changing operation is announced, a reading one has one step.
fn first_phase(table: &Table, operation: u16) -> Phase
    ensures { result ≡ cond (changing table.now.file.now table.now.shape operation) Phase.Announce Phase.ReadOnly }
{
    if reach::is_changing(table, operation) {
        return Phase::Announce;
    }
    Phase::ReadOnly
}

// The record of a task that has begun an operation.
fn begun_task(table: &Table, operation: u16, own: Task) -> Task
    ensures { result ≡ begun_task table.now.file.now table.now.shape operation own }
{
    Task {
        operation,
        phase: u32::from(first_phase(table, operation)),
        ..record::idle_task(own.priority)
    }
}

// Begin for an admitted table: the record is in form, and idle.
fn begin_in(
    file: &[u8],
    admission: Admission,
    tasks: usize,
    task: usize,
    operation: usize,
    own: Task,
) -> Result<Task, Refusal>
    ensures { begin_left own result ≡ begin_in file.now tasks task operation own (Ok admission) }
{
    let shape = admission.shape;
    let table = Table { file, shape };
    if task >= tasks {
        return Err(Refusal::Task);
    }
    if operation >= usize::from(shape.operations) {
        return Err(Refusal::Operation);
    }
    let chosen = operation as u16;
    if !table.entries_in_range() {
        return Err(Refusal::NextState);
    }
    record::read_record(shape, tasks, admission.ceiling, own)?;
    if own.phase != 0 {
        return Err(Refusal::Pending);
    }
    Ok(begun_task(&table, chosen, own))
}

// Begins an operation for one task of a row, by its record: the record that it has then.
#[tactic(auto, unfolding(crate::specs::Call::begin_task))]
pub fn begin_task(
    file: &[u8],
    tasks: usize,
    task: usize,
    operation: usize,
    own: Task,
) -> Result<Task, Refusal>
    ensures { begin_left own result ≡ begin_task file.now tasks task operation own }
{
    let admission = admit(file, tasks)?;
    begin_in(file, admission, tasks, task, operation, own)
}

// Why a step of an idle task is refused: it has no operation pending, or its record is out of form.
fn idle_cause(tasks: usize, own: Task) -> Refusal
    ensures { result ≡ cond (idle_in_form tasks own) Refusal.Idle Refusal.Record }
{
    if record::idle_in_form(tasks, own) {
        return Refusal::Idle;
    }
    Refusal::Record
}

// A task of a row that is admitted.
#[derive(Clone, Copy)]
struct Place<'a> {
    table: Table<'a>,
    ceiling: u32,
    tasks: usize,
    task: usize,
    ghost low: { ceiling ≤ greatest_ceiling },
    ghost few: { tasks ≤ 8 },
    ghost within: { task < tasks },
}

impl Place<'_> {
    // A step for a pending record in form: its access is planned, the touched cell and the used entry are tested, and the
    // access is made.
    #[tactic(auto, using(crate::proofs::Parts::accepted))]
    fn step_from(&self, cells: &mut [u64], own: Task, phase: Phase) -> Result<Step, Refusal>
        requires { (own.priority < self.now.tasks) × (own.steps < 1000000) × (touched (plan_of self.now.table.file.now self.now.table.shape self.now.task own.priority own phase) < length cells.old) × (own.phase ≡ 0 → ⊥) }
        ensures { step_left cells.new own result ≡ step_from self.now.table.file.now self.now.table.shape cells.old self.now.tasks self.now.task own (Ok phase) }
    {
        let task = self.task as u8;
        let first = own.priority as u8;
        let access = plan::plan(&self.table, task, first, own, phase);
        let cell = perform::touched_by(access);
        let word = cells[cell];
        if !perform::cell_in_form(self.table.shape, self.tasks, cell, word) {
            return Err(Refusal::Cell);
        }
        if !entry::used_in_range(&self.table, own, word, phase) {
            return Err(Refusal::NextState);
        }
        let found = perform::perform(cells, access);
        let next = next::next(&self.table, task, first, own, phase, found);
        Ok(advance::advance(self.tasks, own, next))
    }

    // A step for a record of a known phase: its form is tested by its parts, which the compiler takes in here; as one
    // function they would be a call.
    #[tactic(auto, using(crate::proofs::Parts::idle_refused, crate::proofs::Parts::form_refused, crate::proofs::Parts::in_form_lem, crate::proofs::Ready::ready), unfolding(records::specs::Record::pending_in_form))]
    fn step_known(&self, cells: &mut [u64], own: Task, phase: Phase) -> Result<Step, Refusal>
        requires { (length cells.old ≡ self.now.tasks + 1) × (phase_of own.phase ≡ Ok phase) }
        ensures { step_left cells.new own result ≡ step_from self.now.table.file.now self.now.table.shape cells.old self.now.tasks self.now.task own (read_record self.now.table.shape self.now.tasks self.now.ceiling own) }
    {
        let shape = self.table.shape;
        if own.phase == 0 {
            return Err(idle_cause(self.tasks, own));
        }
        if !record::numbers_in_form(shape, self.tasks, self.ceiling, own) {
            return Err(Refusal::Record);
        }
        if !record::words_in_form(shape, self.tasks, own) {
            return Err(Refusal::Record);
        }
        self.step_from(cells, own, phase)
    }
}

// A step for an admitted table.
#[tactic(auto, unfolding(records::specs::Record::read_record))]
fn step_in(
    file: &[u8],
    cells: &mut [u64],
    admission: Admission,
    tasks: usize,
    task: usize,
    own: Task,
) -> Result<Step, Refusal>
    requires { (tasks ≤ 8) × (admission.ceiling ≤ greatest_ceiling) }
    ensures { step_left cells.new own result ≡ step_in file.now cells.old tasks task own (Ok admission) }
{
    if cells.len() != tasks + 1 {
        return Err(Refusal::Cells);
    }
    if tasks <= task {
        return Err(Refusal::Task);
    }
    let phase = Phase::try_from(own.phase)?;
    let place = Place {
        table: Table {
            file,
            shape: admission.shape,
        },
        ceiling: admission.ceiling,
        tasks,
        task,
    };
    place.step_known(cells, own, phase)
}

// Makes one step for one task of a row, by its record; a refused call leaves the cells as they were.
#[tactic(auto, using(crate::proofs::Admission::admit_ranges), unfolding(crate::specs::Call::step_task))]
pub fn step_task(
    file: &[u8],
    cells: &mut [u64],
    tasks: usize,
    task: usize,
    own: Task,
) -> Result<Step, Refusal>
    ensures { step_left cells.new own result ≡ step_task file.now cells.old tasks task own }
{
    let admission = admit(file, tasks)?;
    step_in(file, cells, admission, tasks, task, own)
}
