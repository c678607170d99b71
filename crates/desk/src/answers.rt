// A query for who wants the answers alone: the slate that it writes on is lent to it, so that who asks many queries makes it once.
ghost use Rattle.rules.specs.Rules.{Passes};
ghost use Rattle.figures.specs.Figures.{MOST};
ghost use Rattle.asking.specs.Slate.{slate_of, Wide, SameSlate};
ghost use Rattle.refusals.specs.Told.{answered};
ghost use Rattle.desk.specs.Alone.{AnswersAlone};

use asking::answer::{Reply, answer};
use asking::slate::Slate;
use figures::{Table, Words};
use grid::site::Site;
use refusals::answered::{Refused, told};
use refusals::querying::query_given;
use words::border::natural;
use words::lent::are_words;

// Answers a query on a table that passes the check, without a check.
pub fn answers_passing(
    table: &Words,
    q: Site,
    k: i32,
    slate: &mut Slate<'_>,
    answers: &mut [u32],
) -> Result<Reply, Refused>
    requires { Passes table.now × Wide MOST (slate_of slate.old) }
    ensures answers { AnswersAlone table.now q k (slate_of slate.old) (slate_of slate.new) answers.old answers.new (answered result) }
    ensures lent { SameSlate slate.old slate.new }
{
    are_words(table);
    // The slate has room for as many candidates as a table has points.
    query_given(table, q, k, Table::MOST)?;
    let reply = answer(table, q, natural(k), slate, answers);
    told(reply, reply.n, answers.len())
}
