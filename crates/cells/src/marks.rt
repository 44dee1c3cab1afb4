// The marks of a word: a task linked to a cell has its mark there.
ghost use Rattle.std.specs.Prelude.{◌≡◌};
ghost use Rattle.cells.specs.Layout.{mark_of, has_mark, add_mark, remove_mark};

use crate::layout;

// The marks that a conditional store leaves.
pub const NO_MARKS: u8 = 0;

// The place value of a task's mark; 0 for a task beyond the marks.
#[tactic(auto, unfolding(crate::specs::Layout::mark_of))]
fn mark_of(task: usize) -> u64
    ensures { result ≡ mark_of task }
{
    if task < layout::MARK_COUNT {
        1 << task
    } else {
        0
    }
}

// Whether a task has its mark in a word; a task beyond the marks never has.
#[tactic(auto, unfolding(crate::specs::Layout::has_mark, crate::specs::Marks::has))]
pub fn has_mark(word: u64, task: usize) -> bool
    ensures { result ≡ has_mark task word }
{
    task < layout::MARK_COUNT && (word >> task) % 2 == 1
}

// Link: the word with a task's mark.
#[tactic(auto, using(crate::proofs::WordMarks::add_by_place))]
pub fn add_mark(word: u64, task: usize) -> u64
    ensures { result ≡ add_mark task word }
{
    if has_mark(word, task) {
        word
    } else {
        word + mark_of(task)
    }
}

// Release: the word without a task's mark.
#[tactic(auto, using(crate::proofs::WordMarks::remove_by_place, crate::proofs::WordMarks::mark_within))]
pub fn remove_mark(word: u64, task: usize) -> u64
    ensures { result ≡ remove_mark task word }
{
    if has_mark(word, task) {
        word - mark_of(task)
    } else {
        word
    }
}
