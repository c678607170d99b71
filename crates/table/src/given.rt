// What a call gives back: done, or why it is refused. The definitions in specs/ have document 01's number for each case, and the rule and the slot of 02 §4.
ghost use Rattle.std.specs.Prelude.{◌≡◌};
ghost use Rattle.table.specs.Given.{number_given, rule_given, slot_given};

#[derive(Clone, Copy, PartialEq, Eq, Debug)]
pub enum Refusal {
    // The table is not as long as a table is.
    WrongLength,
    // The rule that is broken, and the lowest slot where it is: −1, the two header words, is below all slots.
    // Kept: the numbers of documents 01 and 02, which C's callers get as they are (`fault`, C interface).
    NotWellFormed { rule: u8, slot: i32 },
    NoSuchNumber,
    OffGrid,
    NoSuchK,
    AlreadyEnrolled,
    Full,
    NotEnrolled,
    FewCandidates,
    ShortList,
    Misshapen,
    SheetTooLong,
}

pub type Given = Result<(), Refusal>;

// Kept: three functions over an answer and no From: they are asked of `Ok` too, and README and bindings name number_given.
// Document 01's number for an answer.
pub fn number_given(g: Given) -> u8
    ensures { result ≡ number_given g }
{
    let Err(refusal) = g else {
        return 0;
    };
    match refusal {
        Refusal::WrongLength => 1,
        Refusal::NotWellFormed { .. } => 2,
        Refusal::NoSuchNumber => 3,
        Refusal::OffGrid => 4,
        Refusal::NoSuchK => 5,
        Refusal::AlreadyEnrolled => 6,
        Refusal::Full => 7,
        Refusal::NotEnrolled => 8,
        Refusal::FewCandidates => 9,
        Refusal::ShortList => 10,
        Refusal::Misshapen => 11,
        Refusal::SheetTooLong => 12,
    }
}

// The rule that is broken, if the table is not well formed, else 0.
pub fn rule_given(g: Given) -> u8
    ensures { result ≡ rule_given g }
{
    match g {
        Err(Refusal::NotWellFormed { rule, .. }) => rule,
        _ => 0,
    }
}

// The lowest slot where it is broken, if the table is not well formed, else 0.
pub fn slot_given(g: Given) -> i32
    ensures { result ≡ slot_given g }
{
    match g {
        Err(Refusal::NotWellFormed { slot, .. }) => slot,
        _ => 0,
    }
}
