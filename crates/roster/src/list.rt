// A whole list: its records one after the other, behind the header.
ghost use Rattle.std.specs.Prelude.{◌≡◌, ◌+◌, ◌*◌, ◌≤◌, length};
ghost use Rattle.sheet.specs.Bytes.{LONGEST};
ghost use Rattle.slip.specs.Output.{Laid};
ghost use Rattle.roster.specs.Roster.{sheet_of, reports_of};

use crate::lines::{put_record, put_report};
use cuts::parts::{Mark, next_at, part_at};
use sheet::marks::LONGEST;
use slip::Slip;
use table::given::Refusal;

// How many bytes stand in the two buffers.
// Kept: two numbers beside two lent buffers: README names `put_list` with these (what may not change); within, they are slips.
#[derive(Clone, Copy)]
pub struct Filled {
    pub lines: usize,
    pub reports: usize,
}

// The most bytes that the lines of a list take, and the reports of its records.
pub const LINES: usize = LONGEST;

pub const REPORTS: usize = 5 * LONGEST + 42;

// Lays the job sheet that a list becomes on one slip, and the reports of its faulty records on the other. Nothing stands on either before.
fn lay_list(file: &[u8], lines: &mut Slip<'_>, reports: &mut Slip<'_>)
    requires { (lines.old.at ≡ 0) × (reports.old.at ≡ 0) × (LONGEST ≤ length lines.old.out.now) × (5 * LONGEST + 42 ≤ length reports.old.out.now) }
    ensures laid { Laid lines.old.out.now 0 (sheet_of file.now) lines.new.out.now lines.new.at }
    ensures same_lines { lines.new.out.ghost_name ≡ lines.old.out.ghost_name }
    ensures laid_2 { Laid reports.old.out.now 0 (reports_of file.now) reports.new.out.now reports.new.at }
    ensures same_reports { reports.new.out.ghost_name ≡ reports.old.out.ghost_name }
{
    if file.len() > LONGEST {
        put_report(reports, 0, Err(Refusal::SheetTooLong));
        return;
    }
    // The header is record 0.
    let mut at = next_at(file, 0, Mark::LineEnd);
    let mut number: u64 = 1;
    // Kept: a while, since it jumps from record to record; a for is no plainer, as no range has those places.
    while at < file.len() {
        put_record(part_at(file, at, Mark::LineEnd), number, lines, reports);
        at = next_at(file, at, Mark::LineEnd);
        number += 1;
    }
}

// Puts the job sheet that a list becomes at the front of one buffer, and the reports of its faulty records at the front of the other.
pub fn put_list(file: &[u8], lines: &mut [u8], reports: &mut [u8]) -> Filled
    requires { (LONGEST ≤ length lines.old) × (5 * LONGEST + 42 ≤ length reports.old) }
    ensures laid { Laid lines.old 0 (sheet_of file.now) lines.new result.lines }
    ensures laid_2 { Laid reports.old 0 (reports_of file.now) reports.new result.reports }
{
    let mut sheet = Slip { out: lines, at: 0 };
    let mut told = Slip {
        out: reports,
        at: 0,
    };
    lay_list(file, &mut sheet, &mut told);
    Filled {
        lines: sheet.at,
        reports: told.at,
    }
}
