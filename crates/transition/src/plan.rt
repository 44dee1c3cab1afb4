// The access of a task's next step. It follows from the table, the task's number, its priority and its record, before a cell
// is looked at.
ghost use Rattle.std.specs.Prelude.{◌≡◌, ◌+◌};
ghost use Rattle.transition.specs.Transition.{plan_of, read_head, read_announcement, swap_head, swap_announcement};

use crate::access::Access;
use crate::words;
use cells::marks;
use records::phase::Phase;
use records::record::Task;
use table::Table;

// Cell 0 is the head.
const HEAD: usize = 0;

// The cell of a task's announcement.
fn announcement_of(task: u8) -> usize
    ensures { result ≡ task + 1 }
{
    usize::from(task) + 1
}

impl Access {
    // A read of the head.
    fn read_head() -> Access
        ensures { result ≡ read_head }
    {
        Access::Read { cell: HEAD }
    }

    // A read of a task's announcement.
    fn read_announcement(task: u8) -> Access
        ensures { result ≡ read_announcement task }
    {
        Access::Read {
            cell: announcement_of(task),
        }
    }

    // A write of a task's announcement.
    fn write_announcement(task: u8, written: u64) -> Access
        ensures { result ≡ Access.Write (task + 1) written }
    {
        Access::Write {
            cell: announcement_of(task),
            written,
        }
    }

    // A swap of the head, compared with the saved one.
    fn swap_head(own: Task, written: u64) -> Access
        ensures { result ≡ swap_head own written }
    {
        Access::Swap {
            cell: HEAD,
            compared: own.head,
            written,
        }
    }

    // A swap of a task's announcement, compared with the saved one.
    fn swap_announcement(task: u8, own: Task, written: u64) -> Access
        ensures { result ≡ swap_announcement task own written }
    {
        Access::Swap {
            cell: announcement_of(task),
            compared: own.announcement,
            written,
        }
    }
}

// The swap that applies the payload's operation for a task.
#[tactic(auto, unfolding(crate::specs::Transition::plan_of))]
fn applied(table: &Table, own: Task, task: u8) -> Access
    ensures { result ≡ plan_of table.now.file.now table.now.shape 0 0 own (Phase.Apply task) }
{
    let operation = words::named_by(own.payload);
    Access::swap_head(own, words::applied_word(table, own.head, task, operation))
}

// The access of a task's next step. The priority is the number of the task that it helps first.
#[tactic(auto, unfolding(crate::specs::Transition::plan_of))]
pub fn plan(table: &Table, task: u8, priority: u8, own: Task, phase: Phase) -> Access
    ensures { result ≡ plan_of table.now.file.now table.now.shape task priority own phase }
{
    let place = usize::from(task);
    match phase {
        Phase::Idle => Access::read_head(),
        Phase::ReadOnly => Access::read_head(),
        Phase::Announce => Access::write_announcement(task, words::operation_word(own.operation)),
        Phase::Poll => Access::read_announcement(task),
        Phase::LoadHead => Access::read_head(),
        Phase::LinkHead => Access::swap_head(own, marks::add_mark(own.head, place)),
        Phase::LoadPriority => Access::read_announcement(priority),
        Phase::LoadOwn => Access::read_announcement(task),
        Phase::LoadExit => Access::read_head(),
        Phase::LinkExit => Access::swap_head(own, marks::add_mark(own.head, place)),
        Phase::ClearExit => Access::swap_head(own, words::cleared_word(own.head)),
        Phase::ReleaseExit => Access::swap_head(own, marks::remove_mark(own.head, place)),
        Phase::Retract => Access::write_announcement(task, 0),
        Phase::ClearHead => Access::swap_head(own, words::cleared_word(own.head)),
        Phase::ReloadClear => Access::read_head(),
        Phase::Apply(j) => applied(table, own, j),
        Phase::ReloadApply(_) => Access::read_head(),
        Phase::LoadHelped(j) => Access::read_announcement(j),
        Phase::LinkHelped(j) => Access::swap_announcement(
            j,
            own,
            marks::add_mark(own.announcement, place),
        ),
        Phase::Validate(_) => Access::read_head(),
        Phase::HandOver(j) => Access::swap_announcement(j, own, words::response_word(own.head)),
        Phase::ReloadHandOver(j) => Access::read_announcement(j),
        Phase::Release(j) => Access::swap_announcement(
            j,
            own,
            marks::remove_mark(own.announcement, place),
        ),
        Phase::ReloadRelease(j) => Access::read_announcement(j),
    }
}
