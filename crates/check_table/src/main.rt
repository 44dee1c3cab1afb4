// Tests the object file on standard input. A table that isn't served prints `x` and the cause's number. An accepted one
// prints `ok`, its states, operations and start state, and for each operation 1 if it is changing and 0 if it is reading.
// A write that fails is passed over, and the next one is tried.
#![tactic(auto)]

use table::Table;

// A 1 or a 0 for each operation.
fn print_changing<P: Print>(rt: &P, table: &Table) {
    for operation in 0..table.shape.operations {
        let changing = u8::from(reach::is_changing(table, operation));
        let _ = print!(rt; "{changing}");
    }
}

fn report<P: Print>(rt: &P, file: &[u8]) {
    match table::check(file) {
        Err(cause) => {
            let _ = print!(rt; "x");
            let _ = print!(rt; " {}", u8::from(cause));
        }
        Ok(shape) => {
            let _ = print!(rt; "ok");
            for field in [shape.states, shape.operations, shape.start] {
                let _ = print!(rt; " {field}");
            }
            let _ = print!(rt; " ");
            print_changing(rt, &Table { file, shape });
        }
    }
    let _ = println!(rt; "");
}

// One byte more than the longest file is room enough to see that a file is too long.
fn main(rt: HostRuntime) {
    let mut room = [0u8; table::LONGEST_FILE + 1];
    let mut input = rt.reader();
    let length = reading::read_full(&mut input, &mut room);
    report(&rt, &room[..length]);
}
