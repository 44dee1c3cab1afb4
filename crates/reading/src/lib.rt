// Reading into room of fixed size. An error counts as the end of what is read.
#![tactic(auto)]

ghost use Rattle.std.specs.Prelude.{take};
ghost use Rattle.std.specs.Io.KnownBytes.{Consumes};
ghost use Rattle.io.specs.Counts.{IsPrefixLen};

use std::io::Read;

// One read: how many bytes it put at the start of the room. At the end it puts none.
pub fn read_some<R: Read>(reader: &mut R, room: &mut [u8]) -> usize
    ensures in_bounds { IsPrefixLen result room.new }
    ensures bytes { Consumes (R.remaining reader.old) (R.remaining reader.new) (take result room.new) }
{
    reader.read(room).unwrap_or(0)
}

// Reads until the room is full or the end has come: how many bytes stand at the start of the room.
pub fn read_full<R: Read>(reader: &mut R, room: &mut [u8]) -> usize
    ensures in_bounds { IsPrefixLen result room.new }
    ensures bytes { Consumes (R.remaining reader.old) (R.remaining reader.new) (take result room.new) }
{
    let mut done = 0;
    while done < room.len() {
        let count = read_some(reader, &mut room[done..]);
        if count == 0 {
            break;
        }
        done += count;
    }
    done
}
