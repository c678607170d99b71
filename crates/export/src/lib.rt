// The calls for C and Rust programs, as a static library: numbers and lent rows, answers by document 01's numbers. The declarations for both stand in bindings/.
// It promises what desk promises. It stands on desk. None of them has a `requires`.
#![tactic(auto)]

ghost use Rattle.std.specs.Prelude.{◌≡◌};
ghost use Rattle.grid.specs.Site.{site};
ghost use Rattle.table.specs.Given.{number_given};
ghost use Rattle.audit.specs.Check.{check_gives};
ghost use Rattle.refusals.specs.Told.{answered, carded};
ghost use Rattle.refusals.specs.Refusals.{enrol_gives, withdraw_gives};
ghost use Rattle.desk.specs.Calls.{after_enrol, after_withdraw};
ghost use Rattle.export.specs.Front.{front_laid};
ghost use Rattle.export.specs.Where.{fault_laid};
ghost use Rattle.export.specs.Told.{counts_laid, Told};
ghost use Rattle.export.specs.Cards.{names_laid, ToldCard, cards_after};
ghost use Rattle.export.specs.Sites.{sites_after};

mod cards;
mod sites;

use asking::answer::Reply;
use grid::site::Site;
use record::Candidate;
use refusals::answered::Refused;
use table::given::{Given, number_given, rule_given, slot_given};

// The values go to the front of the lent row; a row of fewer places stays as it was.
fn lay<T: Copy, const N: usize>(values: [T; N], row: &mut [T])
    ensures { row.new ≡ front_laid values row.old }
{
    if let Some(front) = row.first_chunk_mut::<N>() {
        *front = values;
    }
}

// The number of an answer. Where the table is bad goes to the lent row, as the rule and the slot: 0 and 0 with any answer but 2.
fn told(given: Given, fault: &mut [i32]) -> u8
    ensures given { result ≡ number_given given }
    ensures fault { fault.new ≡ fault_laid given fault.old }
{
    lay([i32::from(rule_given(given)), slot_given(given)], fault);
    number_given(given)
}

// Kept: below, loose numbers and lent rows, two parallel ones among them, as C has them (C interface).
// The table check.
#[unsafe(no_mangle)]
pub extern "C" fn ullagreth_check(table: &[i32], fault: &mut [i32]) -> u8
    ensures given { result ≡ number_given (check_gives table.now) }
    ensures fault { fault.new ≡ fault_laid (check_gives table.now) fault.old }
{
    told(desk::check::check(table), fault)
}

// Enrols a point at a place.
#[unsafe(no_mangle)]
pub extern "C" fn ullagreth_enrol(
    table: &mut [i32],
    number: i32,
    x: i32,
    y: i32,
    fault: &mut [i32],
) -> u8
    ensures given { result ≡ number_given (enrol_gives table.old number (site x y)) }
    ensures words { table.new ≡ after_enrol table.old number (site x y) }
    ensures fault { fault.new ≡ fault_laid (enrol_gives table.old number (site x y)) fault.old }
{
    told(desk::enrol::enrol(table, number, Site { x, y }), fault)
}

// Withdraws the point with a number.
#[unsafe(no_mangle)]
pub extern "C" fn ullagreth_withdraw(table: &mut [i32], number: i32, fault: &mut [i32]) -> u8
    ensures given { result ≡ number_given (withdraw_gives table.old number) }
    ensures words { table.new ≡ after_withdraw table.old number }
    ensures fault { fault.new ≡ fault_laid (withdraw_gives table.old number) fault.old }
{
    told(desk::withdraw::withdraw(table, number), fault)
}

// What a query hands back: its counts n, m and o go to the lent row.
fn told_query(reply: Result<Reply, Refused>, counts: &mut [u64], fault: &mut [i32]) -> u8
    ensures given { result ≡ number_given (answered reply).given }
    ensures counts { counts.new ≡ counts_laid (record { n = (answered reply).n; m = (answered reply).m; o = (answered reply).o }) counts.old }
    ensures fault { fault.new ≡ fault_laid (answered reply).given fault.old }
{
    match reply {
        Ok(r) => {
            lay([r.n as u64, r.m as u64, r.o as u64], counts);
            told(Ok(()), fault)
        }
        Err(refused) => {
            lay([refused.length as u64, 0, 0], counts);
            told(Err(refused.why), fault)
        }
    }
}

// Answers a query: candidates to the candidate list, answers to the answer list, n, m and o to the counts.
#[unsafe(no_mangle)]
pub extern "C" fn ullagreth_query(
    table: &[i32],
    x: i32,
    y: i32,
    k: i32,
    list: &mut [Candidate],
    answers: &mut [u32],
    counts: &mut [u64],
    fault: &mut [i32],
) -> u8
    ensures { Told table.now (site x y) k list.old list.new answers.old answers.new
        counts.old counts.new fault.old fault.new result }
{
    let reply = desk::query::query(table, Site { x, y }, k, list, answers);
    told_query(reply, counts, fault)
}

// The numbers of answers of many places, for one check of the table: a place whose query is refused gets 0.
#[unsafe(no_mangle)]
pub extern "C" fn ullagreth_sites(
    table: &[i32],
    xs: &[i32],
    ys: &[i32],
    k: i32,
    counts: &mut [u32],
    fault: &mut [i32],
) -> u8
    ensures given { result ≡ number_given (check_gives table.now) }
    ensures counts { counts.new ≡ sites_after table.now k xs.now ys.now counts.old }
    ensures fault { fault.new ≡ fault_laid (check_gives table.now) fault.old }
{
    told(sites::count_checked(table, xs, ys, k, counts), fault)
}

// Kept: beside told_query, which lays three counts where this lays one; a function over both would be handed what it lays, and by these two alone, no plainer.
// What a card hands back: how many names it has goes to the lent row.
fn told_card(names: Result<usize, Refused>, row: &mut [u64], fault: &mut [i32]) -> u8
    ensures given { result ≡ number_given (carded names).given }
    ensures names { row.new ≡ names_laid (carded names).names row.old }
    ensures fault { fault.new ≡ fault_laid (carded names).given fault.old }
{
    match names {
        Ok(n) => {
            lay([n as u64], row);
            told(Ok(()), fault)
        }
        Err(refused) => {
            lay([refused.length as u64], row);
            told(Err(refused.why), fault)
        }
    }
}

// The card of the station with a number: its names to the list, in card order, and how many they are to the row.
#[unsafe(no_mangle)]
pub extern "C" fn ullagreth_card(
    table: &[i32],
    number: i32,
    k: i32,
    list: &mut [u32],
    names: &mut [u64],
    fault: &mut [i32],
) -> u8
    ensures { ToldCard table.now number k list.old list.new names.old names.new
        fault.old fault.new result }
{
    told_card(desk::cards::card(table, number, k, list), names, fault)
}

// The cards of many stations, for one check of the table: number i has the i-th stretch of sixteen places.
#[unsafe(no_mangle)]
pub extern "C" fn ullagreth_cards(
    table: &[i32],
    numbers: &[i32],
    k: i32,
    cards: &mut [u32],
    fault: &mut [i32],
) -> u8
    ensures given { result ≡ number_given (check_gives table.now) }
    ensures cards { cards.new ≡ cards_after table.now k numbers.now cards.old }
    ensures fault { fault.new ≡ fault_laid (check_gives table.now) fault.old }
{
    told(cards::put_checked(table, numbers, k, cards), fault)
}
