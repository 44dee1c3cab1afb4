// The access of a step: the cell that it touches, the test of that cell, and the access itself.
ghost use Rattle.std.specs.Prelude.{◌≡◌, ◌<◌, length, get_or};
ghost use Rattle.stepping.specs.Step.{touched, found_of, perform_of, cell_in_form};

use cells::form;
use table::Shape;
use transition::access::{Access, Found};

// The cell that an access touches.
pub fn touched_by(access: Access) -> usize
    ensures { result ≡ touched access }
{
    match access {
        Access::Read { cell } => cell,
        Access::Write { cell, written: _ } => cell,
        Access::Swap {
            cell,
            compared: _,
            written: _,
        } => cell,
    }
}

// Whether the word of the touched cell is in form: as the head in cell 0, as an announcement in any other.
#[tactic(auto, unfolding(crate::specs::Step::cell_in_form))]
pub fn cell_in_form(shape: Shape, tasks: usize, cell: usize, word: u64) -> bool
    ensures { result ≡ cell_in_form shape tasks cell word }
{
    if cell == 0 {
        return form::head_in_form(word, u32::from(shape.states), tasks);
    }
    form::announcement_in_form(word, u32::from(shape.operations), tasks)
}

// Makes an access; every cell but the touched one stays as it was.
#[tactic(auto, unfolding(crate::specs::Step::perform_of))]
pub(crate) fn perform(cells: &mut [u64], access: Access) -> Found
    requires { touched access < length cells.old }
    ensures { (result ≡ found_of (get_or cells.old (touched access) 0) access) × (cells.new ≡ perform_of cells.old access) }
{
    match access {
        Access::Read { cell } => Found::Word(cells[cell]),
        Access::Write { cell, written } => {
            cells[cell] = written;
            Found::Stored
        }
        Access::Swap {
            cell,
            compared,
            written,
        } => {
            if cells[cell] == compared {
                cells[cell] = written;
                Found::Swapped
            } else {
                Found::Unswapped
            }
        }
    }
}
