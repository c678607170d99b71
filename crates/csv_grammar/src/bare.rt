// What stands between the quote marks of a field.
ghost use Rattle.std.specs.Prelude.{◌≡◌};
ghost use Rattle.csv_grammar.specs.Reading.{bare_of};

// A field without the quote marks around it, as a part of it; two quote marks inside are still two. A field that has none is all of it.
#[tactic(auto, using(crate::proofs::Unquoting::bare_short, crate::proofs::Unquoting::bare_plain, crate::proofs::Unquoting::bare_quoted))]
pub fn bare(field: &[u8]) -> &[u8]
    ensures { result.now ≡ bare_of field.now }
{
    match field {
        [b'"', inside @ .., _] => inside,
        _ => field,
    }
}
