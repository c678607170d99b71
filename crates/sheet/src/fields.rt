// The fields of a line: the stretches between its tabs.
ghost use Rattle.std.specs.Prelude.{◌≡◌, [], length, get_or};
ghost use Rattle.sheet.specs.Bytes.{fields_of};

use crate::marks::{TAB, next_from, stop_from};

// Field i of a line, from 0: the part of the line between two tabs. Empty if the line has no such field.
#[tactic(auto, using(crate::proofs::Parted::stop_within))]
pub fn field<'a>(line: &'a [u8], i: usize) -> &'a [u8]
    ensures { result.now ≡ get_or (fields_of line.now) i [] }
{
    let mut at = 0;
    for _ in 0..i {
        at = next_from(line, at, TAB);
    }
    let end = stop_from(line, at, TAB);
    &line[at..end]
}

// How many fields a line has: one more than it has tabs.
pub fn field_count(line: &[u8]) -> usize
    ensures { result ≡ length (fields_of line.now) }
{
    1 + line.iter().filter(|b| **b == TAB).count()
}
