// The layout of the cells: the fields of a head and of an announcement.
ghost use Rattle.std.specs.Prelude.{◌≡◌, ◌/◌, ◌%◌, ◌<◌};

// How many tasks have a mark.
pub const MARK_COUNT: usize = 8;

// A field of a word: the place value of its lowest bit, and how many values it holds.
#[derive(Clone, Copy)]
pub struct Field {
    pub place: u64,
    pub size: u64,
}

impl Field {
    // What the field holds in a word.
    pub(crate) fn of(self, word: u64) -> u64
        requires { (0 < self.place) × (0 < self.size) }
        ensures { result ≡ word / self.place % self.size }
    {
        word / self.place % self.size
    }
}

// The marks are the lowest field of each cell.
pub const MARKS: Field = Field {
    place: 1,
    size: 256,
};

// The other fields of a head, each above the one before, and where it ends.
pub const STATE: Field = Field {
    place: MARKS.place * MARKS.size,
    size: 256,
};

pub const RESPONSE: Field = Field {
    place: STATE.place * STATE.size,
    size: 256,
};

pub const HOLDER: Field = Field {
    place: RESPONSE.place * RESPONSE.size,
    size: 16,
};

pub const HEAD_MOVED: Field = Field {
    place: HOLDER.place * HOLDER.size,
    size: 2,
};

pub const HEAD_SIZE: u64 = HEAD_MOVED.place * HEAD_MOVED.size;

// The other fields of an announcement, each above the one before, and where it ends.
pub const KIND: Field = Field {
    place: MARKS.place * MARKS.size,
    size: 4,
};

pub const GAP: Field = Field {
    place: KIND.place * KIND.size,
    size: 64,
};

pub const PAYLOAD: Field = Field {
    place: GAP.place * GAP.size,
    size: 256,
};

pub const ANNOUNCEMENT_MOVED: Field = Field {
    place: PAYLOAD.place * PAYLOAD.size,
    size: 2,
};

pub const ANNOUNCEMENT_SIZE: u64 = ANNOUNCEMENT_MOVED.place * ANNOUNCEMENT_MOVED.size;
