// The lines of a sheet, by the place where each starts.
ghost use Rattle.std.specs.Prelude.{◌≡◌, ◌≤◌, length};
ghost use Rattle.sheet.specs.Marks.{line_of, next_of};

use crate::marks::{FEED, next_from, stop_from};

// The line that starts at a place, as a part of the sheet: up to its line feed, which the last line may lack.
#[tactic(auto, using(crate::proofs::Parted::stop_within))]
pub fn line_at(sheet: &[u8], at: usize) -> &[u8]
    requires { at ≤ length sheet.now }
    ensures { result.now ≡ line_of sheet.now at }
{
    let end = stop_from(sheet, at, FEED);
    &sheet[at..end]
}

// Where the next line starts. A line feed at the end opens no further line: the sheet is read when this is its length.
pub fn next_at(sheet: &[u8], at: usize) -> usize
    ensures { result ≡ next_of sheet.now at }
{
    next_from(sheet, at, FEED)
}
