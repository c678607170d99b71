// The fields of a record as they stand, quote marks and all.
ghost use Rattle.std.specs.Prelude.{◌≡◌, [], length, get_or};
ghost use Rattle.cuts.specs.declared.parts.Mark.TheVariants.{Comma};
ghost use Rattle.cuts.specs.Cuts.{parts_of};

use crate::parts::{Mark, next_at, part_at, stop_at};

// Field i of a record, from 0, as a part of it. Empty if the record has no such field.
pub fn field<'a>(item: &'a [u8], i: usize) -> &'a [u8]
    ensures { result.now ≡ get_or (parts_of Comma item.now) i [] }
{
    let mut at = 0;
    for _ in 0..i {
        at = next_at(item, at, Mark::Comma);
    }
    part_at(item, at, Mark::Comma)
}

// How many fields a record has: one more than there are commas that part them.
pub fn field_count(item: &[u8]) -> usize
    ensures { result ≡ length (parts_of Comma item.now) }
{
    let mut n = 1;
    let mut stop = stop_at(item, 0, Mark::Comma);
    // Kept: a while, since it jumps from comma to comma; a for is no plainer, as no range has those places.
    while stop < item.len() {
        n += 1;
        stop = stop_at(item, stop + 1, Mark::Comma);
    }
    n
}
