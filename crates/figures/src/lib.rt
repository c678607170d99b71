// The figures of the table: the most and the least entries of a node, the most points, the slots, the words of each.
// "The figures 8, 3, 500 and 256 belong to the table" (01): they stand here, as constants of its type, and nowhere else in the code.
// It promises that they are those of specs/Figures.antt, which every definition and every promise cites. It stands on nothing.
#![tactic(auto)]

ghost use Rattle.std.specs.Prelude.{◌≡◌};
ghost use Rattle.figures.specs.Figures.{FAN, LEAST, MOST, SLOTS, ENTRY, WIDTH, LENGTH, HIGHEST};

// This type holds no data, only the figures. A table itself is `Words`.
#[derive(Clone, Copy)]
pub struct Table {}

impl Table {
    // The most entries of a node.
    pub const FAN: usize = 8;

    // The least entries of a node that is not the root.
    pub const LEAST: usize = 3;

    // The most points.
    pub const MOST: usize = 500;

    pub const SLOTS: usize = 256;

    // The words of an entry.
    pub const ENTRY: usize = 5;

    // The words of a slot: level, number of entries, the entries.
    pub const WIDTH: usize = 2 + Table::ENTRY * Table::FAN;

    // The words of a table: the root's slot, the number of points, the slots.
    pub const LENGTH: usize = 2 + Table::WIDTH * Table::SLOTS;

    // The highest point number.
    pub const HIGHEST: usize = 9999;
}

// The words of a table: the caller's, lent for each call. That there are LENGTH of them is said here, once.
pub type Words = [i32; Table::LENGTH];

// The figures as one value.
#[derive(Clone, Copy)]
pub struct Figures {
    pub fan: usize,
    pub least: usize,
    pub most: usize,
    pub slots: usize,
    pub entry: usize,
    pub width: usize,
    pub length: usize,
    pub highest: usize,
}

// The code's figures are the definitions' figures: a promise that fails if one of either is another.
pub fn stated() -> Figures
    ensures { result ≡ record {
      fan = FAN;
      least = LEAST;
      most = MOST;
      slots = SLOTS;
      entry = ENTRY;
      width = WIDTH;
      length = LENGTH;
      highest = HIGHEST;
    } }
{
    Figures {
        fan: Table::FAN,
        least: Table::LEAST,
        most: Table::MOST,
        slots: Table::SLOTS,
        entry: Table::ENTRY,
        width: Table::WIDTH,
        length: Table::LENGTH,
        highest: Table::HIGHEST,
    }
}
