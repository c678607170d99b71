// Lines of the sheet, one after the other, as many as the output buffer has room for.
ghost use Rattle.std.specs.Prelude.{◌≡◌, ◌+◌, ◌≤◌, ◌<◌, ◌^◌, length};
ghost use Rattle.figures.specs.Figures.{MOST};
ghost use Rattle.rules.specs.Rules.{Passes};
ghost use Rattle.asking.specs.Slate.{slate_of, Wide, SameSlate};
ghost use Rattle.clerk.specs.Running.{lent, longest_line, RanLines};

use crate::line::run_line;
use asking::slate::Slate;
use figures::{Table, Words};
use sheet::reader::{line_here, next_here};
use slip::Slip;
use words::lent::are_words;

// How far the sheet has been run: the place where the next line starts, its number, and how many bytes stand in the buffer.
// Kept: the place and the number go in as they come out, beside the lent buffer and how much of it is filled: README names `run_lines` with these parameters (what may not change). Room for one
// more line speaks of the buffer with the answer list.
#[derive(Clone, Copy)]
pub struct Run {
    pub at: usize,
    pub number: u64,
    pub filled: usize,
}

// The bytes of one output line, at most: its head, three counts, the line feed, and a tab and digits for each answer.
pub fn longest_line(places: usize) -> usize
    requires { longest_line places < 2 ^ 64 }
    ensures { result ≡ longest_line places }
{
    107 + 21 * places
}

// Runs lines from a place of the sheet on, with a slate that the queries write on.
fn run_on(
    sheet: &[u8],
    at: usize,
    number: u64,
    table: &mut Words,
    slate: &mut Slate<'_>,
    answers: &mut [u32],
    out: &mut [u8],
) -> Run
    requires { Passes table.old × Wide MOST (slate_of slate.old) × (at ≤ length sheet.now)
        × (number + length sheet.now < 2 ^ 64) × (longest_line (length answers.old) ≤ length out.old) }
    ensures ran { RanLines sheet.now at number
        (lent table.old answers.old) (lent table.new answers.new)
        out.old out.new result }
    ensures lent { SameSlate slate.old slate.new }
{
    // Every call keeps the table well formed, and its words within 32 bits, as they are here.
    are_words(table);
    let need = longest_line(answers.len());
    let mut run = Run {
        at,
        number,
        filled: 0,
    };
    // Kept: a while, since it jumps from line to line; a for is no plainer, as no range has those places.
    while run.at < sheet.len() {
        if out.len() < run.filled + need {
            return run;
        }
        let line = line_here(sheet, run.at);
        let mut slip = Slip {
            out: &mut *out,
            at: run.filled,
        };
        run_line(line, run.number, table, slate, answers, &mut slip);
        run = Run {
            at: next_here(sheet, run.at),
            number: run.number + 1,
            filled: slip.at,
        };
    }
    run
}

// Runs lines from a place of the sheet on, until its end or until the buffer might not hold another output line.
pub fn run_lines(
    sheet: &[u8],
    at: usize,
    number: u64,
    table: &mut Words,
    answers: &mut [u32],
    out: &mut [u8],
) -> Run
    requires { Passes table.old × (at ≤ length sheet.now) × (number + length sheet.now < 2 ^ 64)
        × (longest_line (length answers.old) ≤ length out.old) }
    ensures { RanLines sheet.now at number
        (lent table.old answers.old) (lent table.new answers.new)
        out.old out.new result }
{
    // The rows that the queries write on, made once for all lines.
    let mut numbers = [0u32; Table::MOST];
    let mut xs = [0u64; Table::MOST];
    let mut ys = [0u64; Table::MOST];
    let mut bars = [0u64; Table::MOST];
    let mut kept = [0u32; Table::MOST];
    let mut slate = Slate {
        numbers: &mut numbers,
        xs: &mut xs,
        ys: &mut ys,
        bars: &mut bars,
        kept: &mut kept,
    };
    run_on(sheet, at, number, table, &mut slate, answers, out)
}
