// A field is a number or it is not.
ghost use Rattle.std.specs.Prelude.{◌≡◌, true};
ghost use Rattle.jobs.specs.Number.{are_digits, is_plain, value_of, plain_number, negative_number, read_number};

// The most digits that a number has.
const MOST_DIGITS: usize = 7;

// Whether the bytes are 1 to 7 digits.
fn are_digits(bytes: &[u8]) -> bool
    ensures { result ≡ are_digits bytes.now }
{
    (1..=MOST_DIGITS).contains(&bytes.len()) && bytes.iter().all(u8::is_ascii_digit)
}

// Whether they are such digits with no leading zero, except in 0 itself.
fn is_plain(bytes: &[u8]) -> bool
    ensures { result ≡ is_plain bytes.now }
{
    are_digits(bytes) && (bytes.len() == 1 || bytes[0] != b'0')
}

// What plain digits say. Seven of them stay far below the largest number.
#[tactic(auto, using(crate::proofs::Digits::plain_at, crate::proofs::Digits::plain_next))]
fn value_of(digits: &[u8]) -> u32
    requires { is_plain digits.now ≡ true }
    ensures { result ≡ value_of digits.now }
{
    let mut n = 0;
    for b in digits {
        n = 10 * n + u32::from(*b - b'0');
    }
    n
}

// The number that plain digits say.
#[tactic(auto, using(crate::proofs::Digits::plain_small, crate::proofs::Digits::pos_fits))]
fn plain_number(bytes: &[u8]) -> Option<i32>
    ensures { result ≡ plain_number bytes.now }
{
    if !is_plain(bytes) {
        return None;
    }
    Some(value_of(bytes) as i32)
}

// The number behind a minus. There is no −0, so no digit 0 stands first.
#[tactic(auto, using(crate::proofs::Digits::plain_least, crate::proofs::Digits::plain_small, crate::proofs::Digits::pos_fits, crate::proofs::Digits::minus_fits))]
fn negative_number(bytes: &[u8]) -> Option<i32>
    ensures { result ≡ negative_number bytes.now }
{
    if !is_plain(bytes) {
        return None;
    }
    if bytes[0] == b'0' {
        return None;
    }
    Some(-(value_of(bytes) as i32))
}

// What a field says: a number with an optional minus, or no number.
pub fn read_number(field: &[u8]) -> Option<i32>
    ensures { result ≡ read_number field.now }
{
    match field {
        [b'-', digits @ ..] => negative_number(digits),
        _ => plain_number(field),
    }
}
