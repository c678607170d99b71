// One line of the sheet: its job is done, and its output line is laid on a slip.
// The sheet's table passes the check by the invariant of the loop over the lines, so no line pays for a check.
ghost use Rattle.std.specs.Prelude.{◌≡◌, ◌+◌, ◌≤◌, length};
ghost use Rattle.figures.specs.Figures.{MOST};
ghost use Rattle.rules.specs.Rules.{Passes};
ghost use Rattle.asking.specs.Slate.{slate_of, Wide, SameSlate};
ghost use Rattle.desk.specs.Alone.{slate_left};
ghost use Rattle.jobs.specs.Job.{job_of};
ghost use Rattle.clerk.specs.Running.{lent, longest_line, RanJob, RanOne, slate_of_job};

use asking::slate::Slate;
use desk::answers::answers_passing;
use desk::cards::card_passing;
use desk::enrol::enrol_passing;
use desk::withdraw::withdraw_passing;
use figures::Words;
use grid::site::Site;
use jobs::job::{Job, job_of};
use slip::Slip;
use table::given::{Refusal, number_given};

// Kept: that the slip has room for one more line speaks of the slip with the answer list, and so is no invariant of the slip. The list itself is the caller's: the slate is written on and read by nobody.
// A query: its counts and its answers follow if it is granted. It writes on the slate.
fn run_query(
    q: Site,
    k: i32,
    number: u64,
    table: &Words,
    slate: &mut Slate<'_>,
    answers: &mut [u32],
    slip: &mut Slip<'_>,
)
    requires { Passes table.now × Wide MOST (slate_of slate.old)
        × (slip.old.at + longest_line (length answers.old) ≤ length slip.old.out.now) }
    ensures ran { RanJob number (Job.Query q.x q.y k)
        (lent table.now answers.old) (lent table.now answers.new)
        slip.old.out.now slip.old.at slip.new.out.now slip.new.at }
    ensures slate { slate_of slate.new ≡ slate_left table.now q k (length answers.old) (slate_of slate.old) }
    ensures lent { SameSlate slate.old slate.new }
    ensures same_out { slip.new.out.ghost_name ≡ slip.old.out.ghost_name }
{
    match answers_passing(table, q, k, slate, answers) {
        Ok(r) => slip.answers(number, r.m, r.o, &answers[..r.n]),
        Err(refused) => slip.line(number, b'Q', number_given(Err(refused.why))),
    }
}

// A card: how many names, and the names, follow if it is granted.
fn run_card(n: i32, k: i32, number: u64, table: &Words, answers: &mut [u32], slip: &mut Slip<'_>)
    requires { Passes table.now × (slip.old.at + longest_line (length answers.old) ≤ length slip.old.out.now) }
    ensures ran { RanJob number (Job.Card n k)
        (lent table.now answers.old) (lent table.now answers.new)
        slip.old.out.now slip.old.at slip.new.out.now slip.new.at }
    ensures same_out { slip.new.out.ghost_name ≡ slip.old.out.ghost_name }
{
    match card_passing(table, n, k, answers) {
        Ok(names) => slip.names(number, &answers[..names]),
        Err(refused) => slip.line(number, b'K', number_given(Err(refused.why))),
    }
}

// Line `number` of the sheet. Its output line goes on the slip. A query writes on the slate.
pub fn run_line(
    line: &[u8],
    number: u64,
    table: &mut Words,
    slate: &mut Slate<'_>,
    answers: &mut [u32],
    slip: &mut Slip<'_>,
)
    requires { Passes table.old × Wide MOST (slate_of slate.old)
        × (slip.old.at + longest_line (length answers.old) ≤ length slip.old.out.now) }
    ensures ran { RanOne number line.now
        (lent table.old answers.old) (lent table.new answers.new)
        slip.old.out.now slip.old.at slip.new.out.now slip.new.at }
    ensures slate { slate_of slate.new
        ≡ slate_of_job (lent table.old answers.old) (job_of line.now) (slate_of slate.old) }
    ensures lent { SameSlate slate.old slate.new }
    ensures same_out { slip.new.out.ghost_name ≡ slip.old.out.ghost_name }
{
    match job_of(line) {
        Job::Enrol(n, x, y) => {
            let given = enrol_passing(table, n, Site { x, y });
            slip.line(number, b'E', number_given(given));
        }
        Job::Withdraw(n) => {
            let given = withdraw_passing(table, n);
            slip.line(number, b'W', number_given(given));
        }
        Job::Query(x, y, k) => run_query(Site { x, y }, k, number, table, slate, answers, slip),
        Job::Card(n, k) => run_card(n, k, number, table, answers, slip),
        Job::MissingK(letter) => slip.line(number, letter, number_given(Err(Refusal::NoSuchK))),
        Job::Misshapen => slip.line(number, b'?', number_given(Err(Refusal::Misshapen))),
    }
}
