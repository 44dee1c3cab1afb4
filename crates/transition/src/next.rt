// What a step leads to. It follows from the table, the task's number, its priority, its record and what the access gave
// back.
ghost use Rattle.std.specs.Prelude.{◌≡◌, cond};
ghost use Rattle.cells.specs.Layout.{head_of, announcement_of, add_mark, has_mark};
ghost use Rattle.table.specs.Entries.{entry_of, moves};
ghost use Rattle.transition.specs.Transition.{state_in, named, moved_by, holder_is, word_in, made_in, bare, with_payload, to_exit, with_head, with_both, failed_link, after_poll, after_link, after_priority, after_own, after_link_helped, after_exit, next_of};

use crate::access::{Found, Next};
use crate::words;
use cells::announcement::Announcement;
use cells::head::Head;
use cells::{announcement, head, marks};
use records::phase::Phase;
use records::record::Task;
use table::Table;

// What an access gave back, as a phase asks for it.
impl Found {
    // The word that was read, 0 if none was.
    fn word(self) -> u64
        ensures { result ≡ word_in self }
    {
        match self {
            Found::Word(word) => word,
            Found::Stored | Found::Swapped | Found::Unswapped => 0,
        }
    }

    // Whether the swap was made.
    fn made(self) -> bool
        ensures { result ≡ made_in self }
    {
        matches!(self, Found::Swapped)
    }
}

// Another phase, by what it keeps; a field in which it keeps nothing is 0.
impl Next {
    fn bare(phase: Phase) -> Next
        ensures { result ≡ bare phase }
    {
        Next::with_payload_and_head(phase, 0, 0)
    }

    fn with_payload(phase: Phase, payload: u32) -> Next
        ensures { result ≡ with_payload phase payload }
    {
        Next::with_payload_and_head(phase, payload, 0)
    }

    fn with_head(phase: Phase, head: u64) -> Next
        ensures { result ≡ with_head phase head }
    {
        Next::with_payload_and_head(phase, 0, head)
    }

    fn with_payload_and_head(phase: Phase, payload: u32, head: u64) -> Next
        ensures { result ≡ Next.Go phase payload head 0 }
    {
        Next::Go {
            phase,
            payload,
            head,
            announcement: 0,
        }
    }

    fn with_both(phase: Phase, head: u64, announcement: u64) -> Next
        ensures { result ≡ with_both phase head announcement }
    {
        Next::Go {
            phase,
            payload: 0,
            head,
            announcement,
        }
    }

    // The exit, with the own outcome.
    fn to_exit(response: u16, moved: bool) -> Next
        ensures { result ≡ to_exit response moved }
    {
        Next::with_payload(Phase::LoadExit, words::payload_of(response, moved))
    }
}

// Whether a task's mark stands in a word.
fn marked(word: u64, task: u8) -> bool
    ensures { result ≡ has_mark task word }
{
    marks::has_mark(word, usize::from(task))
}

// A word with a task's mark.
fn linked(word: u64, task: u8) -> u64
    ensures { result ≡ add_mark task word }
{
    marks::add_mark(word, usize::from(task))
}

// After a link that fails a task looks for its own response before it tries again.
const AFTER_FAILED_LINK: Phase = Phase::Poll;

// By the own announcement: a response leads to the exit.
fn after_poll(word: u64) -> Next
    ensures { result ≡ after_poll (announcement_of word) }
{
    match announcement::read_announcement(word) {
        Announcement::Empty | Announcement::Operation(_) => Next::bare(Phase::LoadHead),
        Announcement::Response(response, moved) => Next::to_exit(response, moved),
    }
}

// A linked head's holder is helped first.
fn after_link(word: u64, found: Head) -> Next
    ensures { result ≡ after_link word found }
{
    match found {
        Head::Free { .. } => Next::with_head(Phase::LoadPriority, word),
        Head::Held { task, .. } => Next::with_head(Phase::LoadHelped(task), word),
    }
}

// After a swap that links the head.
fn after_link_head(task: u8, own: Task, made: bool) -> Next
    ensures { result ≡ cond made (after_link (add_mark task own.head) (head_of own.head)) failed_link }
{
    if made {
        after_link(linked(own.head, task), head::read_head(own.head))
    } else {
        Next::bare(AFTER_FAILED_LINK)
    }
}

// By the announcement of the task that is helped first: its operation is applied.
fn after_priority(priority: u8, own: Task, word: u64) -> Next
    ensures { result ≡ after_priority own.head priority (announcement_of word) }
{
    match announcement::read_announcement(word) {
        Announcement::Operation(operation) => {
            Next::with_payload_and_head(Phase::Apply(priority), u32::from(operation), own.head)
        }
        Announcement::Empty | Announcement::Response(_, _) => {
            Next::with_head(Phase::LoadOwn, own.head)
        }
    }
}

// By the own announcement, with the head linked: the own operation is applied.
fn after_own(task: u8, own: Task, word: u64) -> Next
    ensures { result ≡ after_own own.head task (announcement_of word) }
{
    match announcement::read_announcement(word) {
        Announcement::Empty => Next::bare(Phase::Poll),
        Announcement::Operation(operation) => {
            Next::with_payload_and_head(Phase::Apply(task), u32::from(operation), own.head)
        }
        Announcement::Response(handed, moved) => Next::to_exit(handed, moved),
    }
}

// By the own mark in a head and by whether the task holds it.
fn after_load_exit(task: u8, own: Task, word: u64) -> Next
    ensures { result ≡ after_exit own.payload word (has_mark task word) (holder_is task (head_of word)) }
{
    let holder = words::holder_is(task, head::read_head(word));
    match (marked(word, task), holder) {
        (true, true) => Next::with_payload_and_head(Phase::ClearExit, own.payload, word),
        (true, false) => Next::with_payload_and_head(Phase::ReleaseExit, own.payload, word),
        (false, true) => Next::with_payload_and_head(Phase::LinkExit, own.payload, word),
        (false, false) => Next::with_payload(Phase::Retract, own.payload),
    }
}

// After a swap of the exit on the head; one that was not made starts the exit again.
fn after_exit_swap(own: Task, made: bool, phase: Phase, head: u64) -> Next
    ensures { result ≡ cond made (Next.Go phase own.payload head 0) (with_payload Phase.LoadExit own.payload) }
{
    if made {
        Next::with_payload_and_head(phase, own.payload, head)
    } else {
        Next::with_payload(Phase::LoadExit, own.payload)
    }
}

// A conditional store on the head is tried again, or the loop starts again.
fn swap_again(again: bool, phase: Phase, payload: u32, head: u64) -> Next
    ensures { result ≡ cond again (Next.Go phase payload head 0) (bare Phase.Poll) }
{
    if again {
        Next::with_payload_and_head(phase, payload, head)
    } else {
        Next::bare(Phase::Poll)
    }
}

// A conditional store on a helped announcement is tried again, or the head is cleared.
fn help_again(again: bool, phase: Phase, own: Task, announcement: u64) -> Next
    ensures { result ≡ cond again (with_both phase own.head announcement) (with_head Phase.ClearHead own.head) }
{
    if again {
        Next::with_both(phase, own.head, announcement)
    } else {
        Next::with_head(Phase::ClearHead, own.head)
    }
}

// An applied operation gives the turn to the next task.
fn after_apply(own: Task, helped: u8, made: bool) -> Next
    ensures { result ≡ cond made Next.Turn (Next.Go (Phase.ReloadApply helped) own.payload own.head 0) }
{
    if made {
        Next::Turn
    } else {
        Next::with_payload_and_head(Phase::ReloadApply(helped), own.payload, own.head)
    }
}

// A helper goes on only with a cell that holds an operation.
fn after_linked(own: Task, helped: u8, linked: u64) -> Next
    ensures { result ≡ after_link_helped own.head helped linked (announcement_of own.announcement) }
{
    let Announcement::Operation(_) = announcement::read_announcement(own.announcement) else {
        return Next::with_both(Phase::Release(helped), own.head, linked);
    };
    Next::with_both(Phase::Validate(helped), own.head, linked)
}

// A link of the helped announcement that fails starts the loop again.
fn after_link_helped(task: u8, own: Task, helped: u8, made: bool) -> Next
    ensures { result ≡ cond made (after_link_helped own.head helped (add_mark task own.announcement) (announcement_of own.announcement)) failed_link }
{
    if made {
        after_linked(own, helped, linked(own.announcement, task))
    } else {
        Next::bare(AFTER_FAILED_LINK)
    }
}

// The response is handed over only while the own mark stands in the head.
fn after_validate(own: Task, helped: u8, marked: bool) -> Next
    ensures { result ≡ cond marked (with_both (Phase.HandOver helped) own.head own.announcement) (with_both (Phase.Release helped) own.head own.announcement) }
{
    if marked {
        Next::with_both(Phase::HandOver(helped), own.head, own.announcement)
    } else {
        Next::with_both(Phase::Release(helped), own.head, own.announcement)
    }
}

// A reading operation ends with the outcome of the entry of the state that was read.
fn read_end(table: &Table, own: Task, word: u64) -> Next
    ensures { result ≡ Next.End (entry_of table.now.file.now table.now.shape (state_in (head_of word)) own.operation).response (moves table.now.file.now table.now.shape (state_in (head_of word)) own.operation) }
{
    let state = words::state_in(head::read_head(word));
    let entry = table.read_entry(state, own.operation);
    let moved = table.moves_state(state, own.operation);
    Next::End {
        response: entry.response,
        moved,
    }
}

// A changing operation ends with the outcome that its payload keeps.
fn kept_end(payload: u32) -> Next
    ensures { result ≡ Next.End (named payload) (moved_by payload) }
{
    Next::End {
        response: words::named_by(payload),
        moved: words::moved_by(payload),
    }
}

// What the step of a task leads to. The priority is the number of the task that it helps first.
#[tactic(auto, unfolding(crate::specs::Transition::next_of))]
pub fn next(table: &Table, task: u8, priority: u8, own: Task, phase: Phase, found: Found) -> Next
    ensures { result ≡ next_of table.now.file.now table.now.shape task priority own phase found }
{
    let word = found.word();
    let made = found.made();
    match phase {
        Phase::Idle => Next::bare(Phase::Idle),
        Phase::ReadOnly => read_end(table, own, word),
        Phase::Announce => Next::bare(Phase::Poll),
        Phase::Poll => after_poll(word),
        Phase::LoadHead => Next::with_head(Phase::LinkHead, word),
        Phase::LinkHead => after_link_head(task, own, made),
        Phase::LoadPriority => after_priority(priority, own, word),
        Phase::LoadOwn => after_own(task, own, word),
        Phase::LoadExit => after_load_exit(task, own, word),
        Phase::LinkExit => after_exit_swap(own, made, Phase::ClearExit, linked(own.head, task)),
        Phase::ClearExit => after_exit_swap(own, made, Phase::Retract, 0),
        Phase::ReleaseExit => after_exit_swap(own, made, Phase::Retract, 0),
        Phase::Retract => kept_end(own.payload),
        Phase::ClearHead => swap_again(!made, Phase::ReloadClear, 0, own.head),
        Phase::ReloadClear => swap_again(marked(word, task), Phase::ClearHead, 0, word),
        Phase::Apply(j) => after_apply(own, j, made),
        Phase::ReloadApply(j) => swap_again(marked(word, task), Phase::Apply(j), own.payload, word),
        Phase::LoadHelped(j) => Next::with_both(Phase::LinkHelped(j), own.head, word),
        Phase::LinkHelped(j) => after_link_helped(task, own, j, made),
        Phase::Validate(j) => after_validate(own, j, marked(word, task)),
        Phase::HandOver(j) => help_again(!made, Phase::ReloadHandOver(j), own, own.announcement),
        Phase::ReloadHandOver(j) => help_again(marked(word, task), Phase::HandOver(j), own, word),
        Phase::Release(j) => help_again(!made, Phase::ReloadRelease(j), own, own.announcement),
        Phase::ReloadRelease(j) => help_again(marked(word, task), Phase::Release(j), own, word),
    }
}
