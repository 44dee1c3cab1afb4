// The image of a state: what the cells hold at rest.
ghost use Rattle.std.specs.Prelude.{◌≡◌, length};
ghost use Rattle.cells.specs.Image.{image_in};

use crate::layout;

// Fills the lent cells with the image of a state: the head, then an empty announcement for each task.
#[tactic(auto, using(crate::proofs::Images::image_made, crate::proofs::Images::image_none))]
pub fn fill_image(cells: &mut [u64], state: u16)
    ensures { cells.new ≡ image_in (length cells.old) state }
{
    cells.fill(0);
    if let Some(head) = cells.first_mut() {
        *head = u64::from(state) * layout::STATE.place;
    }
}
