// How many answers each of many places has, for one check of the table: who asks for many pays for one check.
ghost use Rattle.std.specs.Prelude.{◌≡◌};
ghost use Rattle.figures.specs.Figures.{MOST};
ghost use Rattle.rules.specs.Rules.{Passes};
ghost use Rattle.audit.specs.Check.{check_gives};
ghost use Rattle.asking.specs.Slate.{slate_of, Wide, SameSlate};
ghost use Rattle.export.specs.Sites.{site_count, counts_over, sites_after};

use asking::slate::Slate;
use desk::answers::answers_passing;
use desk::check::check;
use figures::{Table, Words};
use grid::site::Site;
use table::given::{Given, Refusal};

// How many answers one place has. The query writes on the slate, and its answers nobody reads: the count is all that is asked.
fn count_at(
    table: &Words,
    site: Site,
    k: i32,
    slate: &mut Slate<'_>,
    answers: &mut [u32; Table::MOST],
) -> u32
    requires { Passes table.now × Wide MOST (slate_of slate.old) }
    ensures count { result ≡ site_count table.now k site }
    ensures wide { Wide MOST (slate_of slate.new) }
    ensures lent { SameSlate slate.old slate.new }
{
    match answers_passing(table, site, k, slate, answers) {
        Ok(reply) => reply.n as u32,
        Err(_) => 0,
    }
}

// The counts of the places, one after the other, until a list or the row of counts ends.
fn count_all(
    table: &Words,
    xs: &[i32],
    ys: &[i32],
    k: i32,
    slate: &mut Slate<'_>,
    answers: &mut [u32; Table::MOST],
    counts: &mut [u32],
)
    requires { Passes table.now × Wide MOST (slate_of slate.old) }
    ensures counts { counts.new ≡ counts_over table.now k xs.now ys.now counts.old }
    ensures lent { SameSlate slate.old slate.new }
{
    let n = xs.len().min(ys.len()).min(counts.len());
    for i in 0..n {
        let site = Site { x: xs[i], y: ys[i] };
        counts[i] = count_at(table, site, k, slate, answers);
    }
}

// A table that the check refuses leaves the counts as they were.
pub(crate) fn count_checked(
    table: &[i32],
    xs: &[i32],
    ys: &[i32],
    k: i32,
    counts: &mut [u32],
) -> Given
    ensures given { result ≡ check_gives table.now }
    ensures counts { counts.new ≡ sites_after table.now k xs.now ys.now counts.old }
{
    check(table)?;
    let Some(table) = table.as_array() else {
        return Err(Refusal::WrongLength);
    };
    // The rows that the queries write on, made once for all places.
    let mut numbers = [0u32; Table::MOST];
    let mut across = [0u64; Table::MOST];
    let mut along = [0u64; Table::MOST];
    let mut bars = [0u64; Table::MOST];
    let mut kept = [0u32; Table::MOST];
    let mut answers = [0u32; Table::MOST];
    let mut slate = Slate {
        numbers: &mut numbers,
        xs: &mut across,
        ys: &mut along,
        bars: &mut bars,
        kept: &mut kept,
    };
    count_all(table, xs, ys, k, &mut slate, &mut answers, counts);
    Ok(())
}
