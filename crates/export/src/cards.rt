// The cards of many stations, for one check of the table: who asks for many pays for one check.
ghost use Rattle.std.specs.Prelude.{◌≡◌};
ghost use Rattle.rules.specs.Rules.{Passes};
ghost use Rattle.audit.specs.Check.{check_gives};
ghost use Rattle.export.specs.Cards.{cards_over, cards_after};

use desk::cards::card_passing;
use desk::check::check;
use figures::Words;
use table::given::{Given, Refusal};

// The places of one card: as many as a card has names at most.
const PLACES: usize = 16;

// The cards of the numbers, one after the other, until the numbers end or no whole stretch is left. A card that is refused leaves its stretch as it was.
fn put_cards(table: &Words, numbers: &[i32], k: i32, cards: &mut [u32])
    requires { Passes table.now }
    ensures { cards.new ≡ cards_over table.now k numbers.now cards.old }
{
    // Kept: a stretch by its place, not chunks_exact_mut: after that borrow the proof knows the row's length and not what stands in it (proof).
    let mut at = 0;
    for number in numbers {
        if cards.len() - at < PLACES {
            return;
        }
        let _names = card_passing(table, *number, k, &mut cards[at..at + PLACES]);
        at += PLACES;
    }
}

// A table that the check refuses leaves the row as it was.
pub(crate) fn put_checked(table: &[i32], numbers: &[i32], k: i32, cards: &mut [u32]) -> Given
    ensures given { result ≡ check_gives table.now }
    ensures cards { cards.new ≡ cards_after table.now k numbers.now cards.old }
{
    check(table)?;
    let Some(table) = table.as_array() else {
        return Err(Refusal::WrongLength);
    };
    put_cards(table, numbers, k, cards);
    Ok(())
}
