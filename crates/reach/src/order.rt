// The search of a table: the states that can be reached, in the order in which they are met.
ghost use Rattle.reach.specs.Order.{meet, meet_next, order_of};
ghost use Rattle.reach.specs.Reached.{Keeps, Kept};
ghost use Rattle.reach.specs.Found.{met, KeptIn, Finds};

use table::Table;

const MOST_STATES: u16 = 256;

// The order as far as it is found, in two lent arrays.
#[derive(Drop)]
struct Order<'a> {
    // The states by place.
    states: &'a mut [u16],
    // The place of a state and one more, 0 for a state not met.
    number: &'a mut [u16],
    // How many states were met.
    count: u16,
}

impl Order<'_> {
    // Meets a state: puts it at the end of the order if it isn't there yet.
    #[tactic(auto, using(crate::proofs::Meeting::meet_no_state, crate::proofs::Meeting::meet_known, crate::proofs::Words::some_listed, crate::proofs::Words::kept_number_long, crate::proofs::Words::kept_number, crate::proofs::Words::kept_room))]
    fn meet(&mut self, state: u16)
        requires { KeptIn self.old }
        ensures { Finds (meet (met self.old) state) self.old self.new }
    {
        if MOST_STATES <= state {
            return;
        }
        let at = usize::from(state);
        if self.number[at] != 0 {
            return;
        }
        self.states[usize::from(self.count)] = state;
        self.count += 1;
        self.number[at] = self.count;
    }

    // Meets the next states of a state, operations from 0 up.
    #[tactic(auto, using(crate::proofs::Turns::meet_next_zero))]
    fn meet_next(&mut self, table: Table, state: u16)
        requires { KeptIn self.old }
        ensures { Finds (meet_next table.entry.file.now table.entry.shape state table.entry.shape.operations (met self.old)) self.old self.new }
    {
        for operation in 0..table.shape.operations {
            let entry = table.read_entry(state, operation);
            self.meet(entry.next);
        }
    }
}

// Meets the start state and gives every state of the order its turn. The arrays are all 0 before.
#[tactic(auto, using(crate::proofs::Turns::turns_zero, crate::proofs::Turns::order_past))]
pub(crate) fn meet_all(table: Table, order: &mut [u16], number: &mut [u16]) -> u16
    requires { Kept order.old number.old 0 }
    ensures { Keeps (order_of table.entry.file.now table.entry.shape) order.new number.new result }
{
    let mut order = Order {
        states: order,
        number,
        count: 0,
    };
    order.meet(table.shape.start);
    let mut place: u16 = 0;
    while place < order.count {
        let state = order.states[usize::from(place)];
        order.meet_next(table, state);
        place += 1;
    }
    order.count
}
