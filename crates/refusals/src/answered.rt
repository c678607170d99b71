// What a query or a card hands back where it is not granted, and where its list is short.
ghost use Rattle.std.specs.Prelude.{◌≡◌};
ghost use Rattle.refusals.specs.Told.{told};

use table::given::Refusal;

// Why it is refused, and the length that the list lacks: of refusal 10 alone, 0 with any other.
#[derive(Clone, Copy)]
pub struct Refused {
    pub why: Refusal,
    pub length: usize,
}

// A refusal has zero counts.
impl From<Refusal> for Refused {
    ghost from_gives = { λ why r. r ≡ record { why = why; length = 0 } };

    fn from(why: Refusal) -> Refused {
        Refused { why, length: 0 }
    }
}

// What is handed back of a reply of this length where the list has so many places: 10 gives the length alone.
pub fn told<T: Copy>(reply: T, length: usize, places: usize) -> Result<T, Refused>
    ensures { result ≡ told reply length places }
{
    if places < length {
        let why = Refusal::ShortList;
        return Err(Refused { why, length });
    }
    Ok(reply)
}
