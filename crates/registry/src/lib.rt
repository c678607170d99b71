// The registry: a station list is read from one reader, and answered on two writers: the job sheet that it becomes, and the reports of its faulty records.
// It promises that it is safe on any input, and ends; and of a reader and writers whose bytes are known, as those over memory, that what it read is
// what it answered: if it says so, the output has gained the roster's job sheet and the errors its reports, and nothing else. What the system's own
// read and write move no contract can say; each byte that is handed to a write is the roster's, who promises it.
// It stands on roster (the list) and on post (reading and writing).
#![tactic(auto)]

ghost use Rattle.std.specs.Prelude.{◌+◌, ◌*◌, ◌≤◌, length, OnOk};
ghost use Rattle.sheet.specs.Bytes.{LONGEST};
ghost use Rattle.registry.specs.Answered.{Written, Answered};

use post::{or_tell, read_all, write_all};
use roster::list::{LINES, REPORTS, put_list};
use sheet::marks::LONGEST;
use std::io;
use std::io::{Read, Write};

// Kept: two writers side by side: they may be of two types, and a struct of both would be made at once to be taken apart, no plainer.
// Writes the job sheet and the reports of a list. The reports come first, so that a write that fails is told behind them.
fn write_list<W: Write, E: Write>(
    file: &[u8],
    output: &mut W,
    errors: &mut E,
    lines: &mut [u8],
    reports: &mut [u8],
) -> io::Result<()>
    requires { (LONGEST ≤ length lines.old) × (5 * LONGEST + 42 ≤ length reports.old) }
    ensures { OnOk result (Written file.now (W.contents output.old) (W.contents output.new)
        (E.contents errors.old) (E.contents errors.new)) }
{
    let filled = put_list(file, lines, reports);
    let told = or_tell(
        write_all(errors, &reports[..filled.reports]),
        errors,
        b"stations: the reports cannot be written; they end before the list does\n",
    );
    let lined = or_tell(
        write_all(output, &lines[..filled.lines]),
        errors,
        b"stations: the output cannot be written; it ends before the list does\n",
    );
    told.and(lined)
}

// The buffers have room for what any list becomes.
fn answer<W: Write, E: Write>(file: &[u8], output: &mut W, errors: &mut E) -> io::Result<()>
    ensures { OnOk result (Written file.now (W.contents output.old) (W.contents output.new)
        (E.contents errors.old) (E.contents errors.new)) }
{
    let mut lines = [0u8; LINES];
    let mut reports = [0u8; REPORTS];
    write_list(file, output, errors, &mut lines, &mut reports)
}

// The program's body. What fails, to be read or to be written, is told. Nothing is written before all is read, so a read that fails leaves no record
// said as done.
pub fn run<R: Read, W: Write, E: Write>(
    input: &mut R,
    output: &mut W,
    errors: &mut E,
) -> io::Result<()>
    ensures { OnOk result (Answered (R.remaining input.old) (R.remaining input.new)
        (W.contents output.old) (W.contents output.new) (E.contents errors.old) (E.contents errors.new)) }
{
    let mut buffer = [0u8; LONGEST + 1];
    let n = or_tell(
        read_all(input, &mut buffer),
        errors,
        b"stations: the list cannot be read; nothing was done\n",
    )?;
    answer(&buffer[..n], output, errors)
}
