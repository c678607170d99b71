// When a card is refused by what it asks for.
ghost use Rattle.std.specs.Prelude.{◌≡◌};
ghost use Rattle.refusals.specs.Carding.{card_asked};

use table::given::{Given, Refusal};

// What a card is refused with for its number and its k alone: 3, 5.
pub fn card_asked(number: i32, k: i32) -> Given
    ensures { result ≡ card_asked number k }
{
    if limits::no_such_number(number) {
        return Err(Refusal::NoSuchNumber);
    }
    if limits::no_such_k(k) {
        return Err(Refusal::NoSuchK);
    }
    Ok(())
}
