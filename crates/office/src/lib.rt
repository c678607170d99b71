// The office: a job sheet is read from a reader, run by the clerk, and answered on a writer.
// It promises that it is safe on any input, and ends; and of a reader and a writer whose bytes are known, as those over memory, that what it read is what
// it answered: if it says so, the output has gained what document 01 wants printed, and nothing else, and nothing was told. What the system's own read
// and write move no contract can say; each byte that is handed to a write is the clerk's, who promises it.
// It stands on clerk (the lines) and on post (the reading and the writing).
#![tactic(auto)]

ghost use Rattle.std.specs.Prelude.{◌≡◌, OnOk};
ghost use Rattle.office.specs.Answered.{Answered};

pub mod answer;

use post::{or_tell, read_all};
use sheet::marks::LONGEST;
use std::io;
use std::io::{Read, Write};

// The program's body. What fails, to be read or to be written, is told. Nothing is written before all is read, so a read that fails leaves no line said as
// done.
pub fn run<R: Read, W: Write, E: Write>(
    input: &mut R,
    output: &mut W,
    errors: &mut E,
) -> io::Result<()>
    ensures answered { OnOk result (Answered (R.remaining input.old) (R.remaining input.new)
        (W.contents output.old) (W.contents output.new)) }
    ensures errors { OnOk result (errors.new ≡ errors.old) }
{
    let mut buffer = [0u8; LONGEST + 1];
    let n = or_tell(
        read_all(input, &mut buffer),
        errors,
        b"ullagreth: the sheet cannot be read; nothing was done\n",
    )?;
    or_tell(
        answer::answer(&buffer[..n], output),
        errors,
        b"ullagreth: the output cannot be written; it ends before the sheet does\n",
    )
}
