// The causes for which a call is not served, and the number of each: docs/FORMATS.md, "When a call is not served".
#![tactic(auto)]

ghost use Rattle.std.specs.Prelude.{◌≡◌};
ghost use Rattle.refusal.specs.Number.{number_of};

#[derive(Clone, Copy)]
pub enum Refusal {
    // The file is too short or too long, or its mark is wrong.
    File,
    // The counts of states or operations, or the start state, are out of range.
    Dimensions,
    // The offset is too large, or the parts don't add up to the file's length.
    Length,
    // A tested entry has a next state that isn't one of the table's states.
    NextState,
    // The row has no record, or more than eight.
    Row,
    // The cells aren't one more than the records.
    Cells,
    // The task's number isn't below the number of tasks.
    Task,
    // The operation's number isn't below the number of operations.
    Operation,
    // The task has an operation pending already.
    Pending,
    // The task has no operation pending.
    Idle,
    // The task's record is out of form.
    Record,
    // The touched cell is out of form.
    Cell,
    // The bench line has no known form, or stands before an accepted start.
    Line,
    // The list has no ring, too many rings or a word too many, or a ring whose length or kind is out of range.
    Rings,
    // No ring owns the chainage.
    Chainage,
    // The lent room is shorter than what is to be written there.
    Room,
    // The window's command is a begin, and done is not acknowledged.
    Unacknowledged,
    // The window's command is not 0 to 3, or the windows are not eight bytes for each task.
    Window,
    // Force: the moves, the state, or the targets' length or a byte of them are out of range.
    Question,
}

// The number that is returned for a cause.
impl From<Refusal> for u8 {
    ghost from_gives = { λ cause number. number ≡ number_of cause };

    fn from(cause: Refusal) -> u8 {
        match cause {
            Refusal::File => 1,
            Refusal::Dimensions => 2,
            Refusal::Length => 3,
            Refusal::NextState => 4,
            Refusal::Row => 5,
            Refusal::Cells => 6,
            Refusal::Task => 7,
            Refusal::Operation => 8,
            Refusal::Pending => 9,
            Refusal::Idle => 10,
            Refusal::Record => 11,
            Refusal::Cell => 12,
            Refusal::Line => 13,
            Refusal::Rings => 14,
            Refusal::Chainage => 15,
            Refusal::Room => 16,
            Refusal::Unacknowledged => 17,
            Refusal::Window => 18,
            Refusal::Question => 19,
        }
    }
}
