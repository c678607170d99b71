// The lines that a record becomes: an E line of the job sheet, or a report.
ghost use Rattle.std.specs.Prelude.{◌≡◌, [], ◌∷◌, ◌+◌, ◌≤◌, length, get_or};
ghost use Rattle.table.specs.Given.{Done};
ghost use Rattle.slip.specs.Output.{tabbed, Laid};
ghost use Rattle.cuts.specs.declared.parts.Mark.TheVariants.{Comma};
ghost use Rattle.cuts.specs.Cuts.{parts_of};
ghost use Rattle.csv_grammar.specs.Reading.{bare_of};
ghost use Rattle.roster.specs.Asked.{given_of};
ghost use Rattle.roster.specs.Roster.{line_for, as_line, report_text, report_for};

use crate::asked::{asked_by, given_for};
use csv_grammar::bare::bare;
use cuts::fields::field;
use sheet::marks::{FEED, TAB};
use slip::Slip;
use table::given::{Given, number_given};

// Bytes as they are.
fn put_bytes(slip: &mut Slip<'_>, bytes: &[u8])
    requires { slip.old.at + length bytes.now ≤ length slip.old.out.now }
    ensures laid { Laid slip.old.out.now slip.old.at bytes.now slip.new.out.now slip.new.at }
    ensures same_slip { slip.new.out.ghost_name ≡ slip.old.out.ghost_name }
{
    for b in bytes {
        slip.byte(*b);
    }
}

// Field i of a record, after a tab, without the quote marks around it.
fn put_field(slip: &mut Slip<'_>, item: &[u8], i: usize)
    requires { slip.old.at + (1 + length (bare_of (get_or (parts_of Comma item.now) i []))) ≤ length slip.old.out.now }
    ensures laid { Laid slip.old.out.now slip.old.at (tabbed (bare_of (get_or (parts_of Comma item.now) i []) ∷ [])) slip.new.out.now slip.new.at }
    ensures same_slip { slip.new.out.ghost_name ≡ slip.old.out.ghost_name }
{
    slip.byte(TAB);
    put_bytes(slip, bare(field(item, i)));
}

// The E line of a record that is not refused: number, x and y as they stand, the name dropped.
fn put_enrol(slip: &mut Slip<'_>, item: &[u8])
    requires { (given_of item.now ≡ Done) × (slip.old.at + (2 + length item.now) ≤ length slip.old.out.now) }
    ensures laid { Laid slip.old.out.now slip.old.at (line_for item.now) slip.new.out.now slip.new.at }
    ensures same_slip { slip.new.out.ghost_name ≡ slip.old.out.ghost_name }
{
    slip.byte(b'E');
    put_field(slip, item, 0);
    put_field(slip, item, 1);
    put_field(slip, item, 2);
    slip.byte(FEED);
}

// The report of a faulty record, or of a file too long: its number and its refusal.
pub(crate) fn put_report(slip: &mut Slip<'_>, number: u64, given: Given)
    requires { slip.old.at + 42 ≤ length slip.old.out.now }
    ensures laid { Laid slip.old.out.now slip.old.at (as_line (report_text number given)) slip.new.out.now slip.new.at }
    ensures same_slip { slip.new.out.ghost_name ≡ slip.old.out.ghost_name }
{
    slip.decimal(number);
    slip.number(u64::from(number_given(given)));
    slip.byte(FEED);
}

// One record: its line goes behind the lines, or its report behind the reports.
pub(crate) fn put_record(item: &[u8], number: u64, lines: &mut Slip<'_>, reports: &mut Slip<'_>)
    requires { (lines.old.at + (2 + length item.now) ≤ length lines.old.out.now) × (reports.old.at + 42 ≤ length reports.old.out.now) }
    ensures laid { Laid lines.old.out.now lines.old.at (line_for item.now) lines.new.out.now lines.new.at }
    ensures same_lines { lines.new.out.ghost_name ≡ lines.old.out.ghost_name }
    ensures laid_2 { Laid reports.old.out.now reports.old.at (report_for number item.now) reports.new.out.now reports.new.at }
    ensures same_reports { reports.new.out.ghost_name ≡ reports.old.out.ghost_name }
{
    let given = given_for(asked_by(item));
    match given {
        Ok(()) => put_enrol(lines, item),
        Err(_) => put_report(reports, number, given),
    }
}
