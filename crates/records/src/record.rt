// A task's private record, and its forms.
ghost use Rattle.std.specs.Prelude.{◌≡◌};
ghost use Rattle.records.specs.Record.{idle_task, idle_in_form, names_task, saved_payload_in_form, numbers_in_form, words_in_form, record_in_form, read_record};

use crate::phase::Phase;
use cells::form;
use refusal::Refusal;
use table::Shape;

// Which fields a phase uses, and their forms and ranges, stand in docs/RECORDS.md. Its size is 32 bytes, without gaps.
#[repr(C)]
#[derive(Clone, Copy, PartialEq, Eq)]
pub struct Task {
    // A saved head.
    pub head: u64,
    // A saved announcement.
    pub announcement: u64,
    // An operation that is to be applied, or the own response and whether the state moved.
    pub payload: u32,
    // The own steps since begin.
    pub steps: u32,
    // The own operation.
    pub operation: u16,
    // The task that is helped first.
    pub priority: u16,
    // What the next step does.
    pub phase: u32,
}

// From this number on the phases name a task.
const FIRST_NAMING: u32 = 16;

// Up to this number the phases that name a task apply its operation.
const LAST_APPLYING: u32 = 31;

// The record of an idle task, which keeps its priority alone.
pub fn idle_task(priority: u16) -> Task
    ensures { result ≡ idle_task priority }
{
    Task {
        head: 0,
        announcement: 0,
        payload: 0,
        steps: 0,
        operation: 0,
        priority,
        phase: 0,
    }
}

// Whether a record is in the idle form.
#[tactic(auto, unfolding(crate::specs::Record::idle_in_form))]
pub fn idle_in_form(tasks: usize, own: Task) -> bool
    ensures { result ≡ idle_in_form tasks own }
{
    let idle = Task {
        phase: own.phase,
        ..idle_task(own.priority)
    };
    usize::from(own.priority) < tasks && own == idle
}

// Whether the task that a phase works for is below `tasks`.
#[tactic(auto, unfolding(crate::specs::Record::names_task))]
fn names_task(tasks: usize, phase: u32) -> bool
    ensures { result ≡ names_task tasks phase }
{
    phase < FIRST_NAMING || ((phase % 8) as usize) < tasks
}

// Whether the payload is an operation, in the phases that apply it.
#[tactic(auto, unfolding(crate::specs::Record::saved_payload_in_form))]
fn payload_in_form(operations: u16, own: Task) -> bool
    ensures { result ≡ saved_payload_in_form operations own }
{
    match own.phase {
        FIRST_NAMING..=LAST_APPLYING => own.payload < u32::from(operations),
        _ => true,
    }
}

// Whether the numbers of a pending record are in range.
#[tactic(auto, unfolding(crate::specs::Record::numbers_in_form))]
pub fn numbers_in_form(shape: Shape, tasks: usize, ceiling: u32, own: Task) -> bool
    ensures { result ≡ numbers_in_form shape tasks ceiling own }
{
    names_task(tasks, own.phase)
        && own.operation < shape.operations
        && usize::from(own.priority) < tasks
        && own.steps < ceiling
        && payload_in_form(shape.operations, own)
}

// Whether the saved words of a record are in form.
#[tactic(auto, unfolding(crate::specs::Record::words_in_form))]
pub fn words_in_form(shape: Shape, tasks: usize, own: Task) -> bool
    ensures { result ≡ words_in_form shape tasks own }
{
    form::head_in_form(own.head, u32::from(shape.states), tasks)
        && form::announcement_in_form(own.announcement, u32::from(shape.operations), tasks)
}

// Whether a record is in the form of its phase: idle in phase 0, and pending in every other.
#[tactic(auto, unfolding(crate::specs::Record::record_in_form, crate::specs::Record::pending_in_form))]
fn record_in_form(shape: Shape, tasks: usize, ceiling: u32, own: Task) -> bool
    ensures { result ≡ record_in_form shape tasks ceiling own }
{
    if own.phase == 0 {
        idle_in_form(tasks, own)
    } else {
        numbers_in_form(shape, tasks, ceiling, own) && words_in_form(shape, tasks, own)
    }
}

// The phase of a record; one that is out of form is refused with 11.
#[tactic(auto, unfolding(crate::specs::Record::read_record))]
pub fn read_record(shape: Shape, tasks: usize, ceiling: u32, own: Task) -> Result<Phase, Refusal>
    ensures { result ≡ read_record shape tasks ceiling own }
{
    let phase = Phase::try_from(own.phase)?;
    if record_in_form(shape, tasks, ceiling, own) {
        Ok(phase)
    } else {
        Err(Refusal::Record)
    }
}
