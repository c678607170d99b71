// The reader of a sheet: the sheet's bytes and the place in them, kept together.
// Its methods take it apart and ask sheet::lines. Above them stand two functions with plain parameters, which a loop over lines calls.
ghost use Rattle.std.specs.Prelude.{◌≡◌, ◌≤◌, length};
ghost use Rattle.sheet.specs.Marks.{line_of, next_of};

use crate::lines::{line_at, next_at};

// at is where the next line starts; at the sheet's length there is none.
// Kept: that at is no further than that is asked by `line`, and is no invariant: `at` and `next` promise a reader of any place (what may not change).
#[derive(Clone, Copy)]
pub struct Reader<'a> {
    pub sheet: &'a [u8],
    pub at: usize,
}

impl<'a> Reader<'a> {
    // A reader at a place of a sheet.
    pub fn at(sheet: &'a [u8], at: usize) -> Reader<'a>
        ensures { (result.sheet ≡ sheet.entry) × (result.at ≡ at) }
    {
        Reader { sheet, at }
    }

    // The line that starts at the reader's place, as a part of the sheet.
    pub fn line(self) -> &'a [u8]
        requires { self.at ≤ length self.sheet.now }
        ensures { result.now ≡ line_of self.entry.sheet.now self.entry.at }
    {
        line_at(self.sheet, self.at)
    }

    // The reader behind that line.
    pub fn next(self) -> Reader<'a>
        ensures { (result.sheet ≡ self.entry.sheet) × (result.at ≡ next_of self.entry.sheet.now self.entry.at) }
    {
        let at = next_at(self.sheet, self.at);
        Reader { at, ..self }
    }
}

// Kept: the two thin functions that document 01 wants over the covered ones ("The form each place takes").
// The line that starts at a place of a sheet.
pub fn line_here(sheet: &[u8], at: usize) -> &[u8]
    requires { at ≤ length sheet.now }
    ensures { result.now ≡ line_of sheet.now at }
{
    Reader::at(sheet, at).line()
}

// The place where the next line starts.
pub fn next_here(sheet: &[u8], at: usize) -> usize
    ensures { result ≡ next_of sheet.now at }
{
    Reader::at(sheet, at).next().at
}
