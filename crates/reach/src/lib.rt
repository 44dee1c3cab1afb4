// The states of an object table that can be reached from its start state, in the order of first meeting (docs/FORMATS.md, "One
// file for one object"), and which operations are changing: those that move one of these states ("The object table").
//
// The order is kept in two arrays: the states by place, and by state its place and one more, 0 for a state not met.
#![tactic(auto)]

ghost use Rattle.std.specs.Prelude.{◌≡◌, ◌&&◌, ltb, length, get_or};
ghost use Rattle.laws.specs.Below.{any_below};
ghost use Rattle.table.specs.Entries.{moves};
ghost use Rattle.reach.specs.Changing.{changing};
ghost use Rattle.reach.specs.Reached.{reached_of, reached_into};

use table::Table;

mod order;

// The length of the arrays: a place for each state that a table can have.
const PLACES: usize = 256;

// What the search of a table finds.
#[derive(Clone, Copy)]
pub struct Reached {
    // The states by place.
    pub order: [u16; 256],
    // The place of a state and one more, 0 if it can't be reached.
    pub number: [u16; 256],
    // How many states can be reached.
    pub count: u16,
}

// The states of a table that can be reached, in arrays of 256 words that may hold anything before. Answers how many they are;
// arrays of another length are left as they were, and the answer is 0.
#[tactic(auto, using(crate::proofs::Words::into_other_order, crate::proofs::Words::into_other_number, crate::proofs::Words::into_both))]
pub fn reach_into(table: &Table, order: &mut [u16], number: &mut [u16]) -> u16
    ensures { (order.new ≡ (reached_into table.now.file.now table.now.shape order.old number.old).order) × (number.new ≡ (reached_into table.now.file.now table.now.shape order.old number.old).number) × (result ≡ (reached_into table.now.file.now table.now.shape order.old number.old).count) }
{
    if order.len() != PLACES {
        return 0;
    }
    if number.len() != PLACES {
        return 0;
    }
    order.fill(0);
    number.fill(0);
    order::meet_all(*table, order, number)
}

// The states of a table that can be reached, by value.
#[tactic(auto, using(crate::proofs::Words::into_both))]
pub fn reach(table: &Table) -> Reached
    ensures { result ≡ reached_of table.now.file.now table.now.shape }
{
    let mut order = [0; 256];
    let mut number = [0; 256];
    let count = reach_into(table, &mut order, &mut number);
    Reached {
        order,
        number,
        count,
    }
}

// Whether an operation moves some state of the table, one that can be reached or not.
#[tactic(auto, using(laws::proofs::Chains::all_any))]
fn moves_some(table: &Table, operation: u16) -> bool
    ensures { result ≡ any_below table.now.shape.states (λ state. moves table.now.file.now table.now.shape state operation) }
{
    (0..table.shape.states).any(|state| table.moves_state(state, operation))
}

// Whether a number is a state of the table that an operation moves.
fn moves_known(table: &Table, state: u16, operation: u16) -> bool
    ensures { result ≡ (ltb state table.now.shape.states && moves table.now.file.now table.now.shape state operation) }
{
    state < table.shape.states && table.moves_state(state, operation)
}

// Whether an operation moves one of the states that were met.
#[tactic(auto, using(laws::proofs::Chains::all_any))]
fn moves_met(table: &Table, met: &[u16], operation: u16) -> bool
    ensures { result ≡ any_below (length met.now) (λ place. ltb (get_or met.now place 0) table.now.shape.states && moves table.now.file.now table.now.shape (get_or met.now place 0) operation) }
{
    met.iter()
        .any(|state| moves_known(table, *state, operation))
}

// Whether an operation moves some state that can be reached; otherwise it is reading. One that moves no state of the table is
// reading without a search.
#[tactic(auto, using(crate::proofs::Words::none_kept, crate::proofs::ChangingWords::unmoved_reading))]
pub fn is_changing(table: &Table, operation: u16) -> bool
    ensures { result ≡ changing table.now.file.now table.now.shape operation }
{
    if !moves_some(table, operation) {
        return false;
    }
    let mut order = [0; 256];
    let mut number = [0; 256];
    let count = order::meet_all(*table, &mut order, &mut number);
    moves_met(table, &order[..usize::from(count)], operation)
}
