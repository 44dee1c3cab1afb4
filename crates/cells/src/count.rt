// How many marks are set.
ghost use Rattle.std.specs.Prelude.{◌≡◌};
ghost use Rattle.cells.specs.Count.{marks_in, mark_count};

use crate::layout;

// How many marks are set in a word: the count of ones of its low byte.
#[tactic(auto, using(crate::proofs::Counts::byte_ones))]
fn marks_in(word: u64) -> u64
    ensures { result ≡ marks_in word }
{
    u64::from(layout::MARKS.of(word).count_ones())
}

// How many marks are set in all cells together.
#[tactic(auto, using(crate::proofs::Counts::count_summed))]
pub fn count_marks(cells: &[u64]) -> u64
    ensures { result ≡ mark_count cells.now }
{
    cells.iter().map(|&word| marks_in(word)).sum()
}
