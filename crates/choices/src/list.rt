// A walk: 64 entries and a length. Zeros follow the list's end. An array with a length beside it, since no memory is allocated, and C lends it so.
ghost use Rattle.std.specs.Prelude.{[]};
ghost use Rattle.choices.specs.Listing.{Lists};

#[derive(Clone, Copy)]
pub struct Walk {
    pub entries: [u8; Walk::LIMIT],
    pub len: usize,
}

impl Walk {
    // The most choices that a run may meet, and so the most entries of a list. Named here once.
    pub const LIMIT: usize = 64;

    // The empty list.
    pub fn empty() -> Walk
        ensures { Lists result [] }
    {
        Walk {
            entries: [0u8; Walk::LIMIT],
            len: 0,
        }
    }
}
