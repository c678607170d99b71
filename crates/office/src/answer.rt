// Answering a sheet: the clerk fills the output buffer, the buffer is written, and so on to the sheet's end.
ghost use Rattle.std.specs.Prelude.{◌≤◌, length, OnOk};
ghost use Rattle.std.specs.Io.KnownBytes.{Appends};
ghost use Rattle.rules.specs.Rules.{Passes};
ghost use Rattle.sheet.specs.Bytes.{LONGEST};
ghost use Rattle.slip.specs.Output.{Laid};
ghost use Rattle.clerk.specs.Sheet.{too_long_line, sheet_output};
ghost use Rattle.clerk.specs.Running.{lent, longest_line, rest_output, stand_at};

use clerk::run::run_lines;
use clerk::start::clear;
use figures::{Table, Words};
use post::write_all;
use sheet::marks::LONGEST;
use slip::Slip;
use std::io;
use std::io::Write;
use table::given::{Refusal, number_given};

// The bytes that are written at a time.
const ROOM: usize = 65536;

// Runs all lines on a table that passes the check. After a write that fails no line is run.
fn answer_lines<W: Write>(
    sheet: &[u8],
    output: &mut W,
    table: &mut Words,
    answers: &mut [u32],
    out: &mut [u8],
) -> io::Result<()>
    requires { Passes table.old × (length sheet.now ≤ LONGEST) × (longest_line (length answers.old) ≤ length out.old) }
    ensures { OnOk result (Appends (W.contents output.old) (W.contents output.new)
        (rest_output sheet.now (stand_at 0 1 (lent table.old answers.old)))) }
{
    let mut at = 0;
    let mut number = 1;
    // Kept: a while, since it jumps by as many lines as the buffer holds; a for is no plainer, as no range has those places.
    while at < sheet.len() {
        let run = run_lines(sheet, at, number, table, answers, out);
        write_all(output, &out[..run.filled])?;
        at = run.at;
        number = run.number;
    }
    Ok(())
}

// A sheet starts with the empty table and an answer list of 500; the clerk makes the rows that its queries write on, of 500 places each.
fn answer_all<W: Write>(sheet: &[u8], output: &mut W) -> io::Result<()>
    requires { length sheet.now ≤ LONGEST }
    ensures { OnOk result (Appends (W.contents output.old) (W.contents output.new) (sheet_output sheet.now)) }
{
    let mut table = [0i32; Table::LENGTH];
    let mut answers = [0u32; Table::MOST];
    let mut out = [0u8; ROOM];
    clear(&mut table);
    answer_lines(sheet, output, &mut table, &mut answers, &mut out)
}

// The one line that a sheet too long prints.
fn put_too_long(out: &mut [u8]) -> usize
    requires { 44 ≤ length out.old }
    ensures { Laid out.old 0 too_long_line out.new result }
{
    let mut slip = Slip { out, at: 0 };
    slip.line(0, b'?', number_given(Err(Refusal::SheetTooLong)));
    slip.at
}

// Of a sheet too long no line is run.
fn answer_too_long<W: Write>(output: &mut W) -> io::Result<()>
    ensures { OnOk result (Appends (W.contents output.old) (W.contents output.new) too_long_line) }
{
    let mut out = [0u8; 44];
    let filled = put_too_long(&mut out);
    write_all(output, &out[..filled])
}

// Writes what a sheet prints.
pub(crate) fn answer<W: Write>(sheet: &[u8], output: &mut W) -> io::Result<()>
    ensures { OnOk result (Appends (W.contents output.old) (W.contents output.new) (sheet_output sheet.now)) }
{
    if sheet.len() > LONGEST {
        return answer_too_long(output);
    }
    answer_all(sheet, output)
}
