// The one access of a step, what it gives back, and what a step leads to.
use records::phase::Phase;

// An access to one cell, with the word compared with and the word written.
#[derive(Clone, Copy)]
pub enum Access {
    Read {
        cell: usize,
    },
    Write {
        cell: usize,
        written: u64,
    },
    Swap {
        cell: usize,
        compared: u64,
        written: u64,
    },
}

// What an access gives back: the word for a read, nothing for a write, yes or no for a swap.
#[derive(Clone, Copy)]
pub enum Found {
    Word(u64),
    Stored,
    Swapped,
    Unswapped,
}

// What a step leads to.
#[derive(Clone, Copy)]
pub enum Next {
    // Another phase, with what it keeps: a payload, a head, an announcement.
    Go {
        phase: Phase,
        payload: u32,
        head: u64,
        announcement: u64,
    },
    // The loop's begin, with the priority moved on by one task.
    Turn,
    // The end, with the response and whether the state moved.
    End {
        response: u16,
        moved: bool,
    },
}
