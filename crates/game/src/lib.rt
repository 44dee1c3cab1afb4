// Which console can force it (docs/FORMATS.md): whether the jack console, moving first and in turn with the surface link, can
// force a target state within so many moves of both sides together, and the lowest operation by which it should open.
//
// Each side's turn is judged by the turns of the other side that may follow, the moves left falling.
#![tactic(auto)]

ghost use Rattle.std.specs.Prelude.{◌≡◌};
ghost use Rattle.game.specs.Turns.{is_target, theirs};
ghost use Rattle.game.specs.Force.{targets_fit, question_fits, turn_of, is_yes, force_of};

use refusal::Refusal;
use table::{Shape, Table};

const MOST_MOVES: usize = 4;

// Whether the jack console can force a target state.
#[derive(Clone, Copy)]
pub enum Verdict {
    // Yes: the state is a target at the outset, and no move is needed.
    Reached,
    // Yes: this is the lowest operation that wins.
    Wins(u16),
    // No: no operation wins.
    Loses,
}

// Whether a state is a target; past the targets' end none is.
#[tactic(auto, unfolding(crate::specs::Turns::is_target))]
fn is_target(targets: &[u8], state: u16) -> bool
    ensures { result ≡ is_target targets.now state }
{
    targets.get(usize::from(state)) == Some(&1)
}

// Whether an answer is a yes.
fn is_yes(answer: Verdict) -> bool
    ensures { result ≡ is_yes answer }
{
    matches!(answer, Verdict::Reached | Verdict::Wins(_))
}

// The jack console's turn: some operation must lead to a turn of the link that is won.
#[cycle(turns)]
#[tactic(auto, using(crate::proofs::Turns::reached, crate::proofs::Turns::turn_none, crate::proofs::Turns::turn_wins, crate::proofs::Turns::turn_loses))]
fn our_turn(table: &Table, targets: &[u8], left: usize, state: u16) -> Verdict
    ensures { result ≡ turn_of table.now.file.now table.now.shape targets.now left state }
{
    if is_target(targets, state) {
        return Verdict::Reached;
    }
    if left == 0 {
        return Verdict::Loses;
    }
    for operation in 0..table.shape.operations {
        let entry = table.read_entry(state, operation);
        if their_turn(table, targets, left - 1, entry.next) {
            return Verdict::Wins(operation);
        }
    }
    Verdict::Loses
}

// The link's turn: every operation must lead to a turn of the jack console that is won.
#[cycle(turns)]
#[tactic(auto, using(crate::proofs::Turns::theirs_target, crate::proofs::Turns::theirs_none, crate::proofs::Turns::theirs_lost, crate::proofs::Turns::theirs_won, crate::proofs::Turns::yes_ours))]
fn their_turn(table: &Table, targets: &[u8], left: usize, state: u16) -> bool
    ensures { result ≡ theirs table.now.file.now table.now.shape targets.now left state }
{
    if is_target(targets, state) {
        return true;
    }
    if left == 0 {
        return false;
    }
    for operation in 0..table.shape.operations {
        let entry = table.read_entry(state, operation);
        if !is_yes(our_turn(table, targets, left - 1, entry.next)) {
            return false;
        }
    }
    true
}

// Whether the targets are a byte for each state, 0 or 1.
#[tactic(auto, using(laws::proofs::Chains::all_any), unfolding(crate::specs::Force::targets_fit))]
fn targets_fit(shape: Shape, targets: &[u8]) -> bool
    ensures { result ≡ targets_fit shape targets.now }
{
    targets.len() == usize::from(shape.states) && targets.iter().all(|byte| *byte <= 1)
}

// Whether moves, state and targets are in range: cause 19 does not hold.
#[tactic(auto, unfolding(crate::specs::Force::question_fits))]
fn question_fits(shape: Shape, state: usize, targets: &[u8], moves: usize) -> bool
    ensures { result ≡ question_fits shape state targets.now moves }
{
    1 <= moves
        && moves <= MOST_MOVES
        && state < usize::from(shape.states)
        && targets_fit(shape, targets)
}

// The first of causes 1 to 4 that holds, 4 on all entries, or cause 19, or whether the jack console can force a target.
#[tactic(auto, using(crate::proofs::Questions::fits_asked, crate::proofs::Forced::forced_refused, crate::proofs::Forced::forced_unfit, crate::proofs::Forced::forced_turn))]
pub fn force(file: &[u8], state: usize, targets: &[u8], moves: usize) -> Result<Verdict, Refusal>
    ensures { result ≡ force_of file.now state targets.now moves }
{
    let shape = table::check(file)?;
    if !question_fits(shape, state, targets, moves) {
        return Err(Refusal::Question);
    }
    let table = Table { file, shape };
    Ok(our_turn(&table, targets, moves, state as u16))
}
