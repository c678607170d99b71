// The border to signed words: outside this file no word is signed.
ghost use Rattle.std.specs.Prelude.{◌≡◌, ◌<◌, ◌^◌, pos, length, get_or, set};
ghost use Rattle.axis.specs.Axis.{step_on_grid};
ghost use Rattle.words.specs.Word.{steps_of, word_of, nat_of, on_grid};

// The false origin, in steps: the word 0. Every word has a place right of step 0.
const ORIGIN: i64 = 2147483648;

// The farthest that a coordinate on the grid lies from 0.
const REACH: u64 = 1000000;

// The steps of a word: how far it lies above the least word of all.
pub fn steps(w: i32) -> u64
    ensures { result ≡ steps_of w }
{
    (w as i64 + ORIGIN) as u64
}

// Whether a coordinate in steps is on the grid.
pub fn step_on_grid(s: u64) -> bool
    ensures { result ≡ step_on_grid s }
{
    (2147483648 - REACH..=2147483648 + REACH).contains(&s)
}

// Whether a number that comes from outside is a coordinate on the grid.
pub fn on_grid(w: i32) -> bool
    ensures { result ≡ on_grid w }
{
    step_on_grid(steps(w))
}

// Kept: here and below a row and a place in it as two, as an index takes them; a struct of the two would be made for each word that is read, no plainer.
// A coordinate, as steps from the false origin.
pub fn steps_at(words: &[i32], at: usize) -> u64
    requires { at < length words.now }
    ensures { result ≡ steps_of (get_or words.now at (pos 0)) }
{
    steps(words[at])
}

// A level, a number of entries, a point number or a slot. A negative word reads as more than any of these can be.
pub fn natural(w: i32) -> usize
    ensures { result ≡ nat_of w }
{
    w.cast_unsigned() as usize
}

pub fn natural_at(words: &[i32], at: usize) -> usize
    requires { at < length words.now }
    ensures { result ≡ nat_of (get_or words.now at (pos 0)) }
{
    natural(words[at])
}

// The word at so many steps.
pub fn word(s: u64) -> i32
    requires { s < 2 ^ 32 }
    ensures { result ≡ word_of s }
{
    (s as i64 - ORIGIN) as i32
}

pub fn put_steps(words: &mut [i32], at: usize, s: u64)
    requires { (at < length words.old) × (s < 2 ^ 32) }
    ensures { words.new ≡ set words.old at (word_of s) }
{
    words[at] = word(s);
}

pub fn put_natural(words: &mut [i32], at: usize, n: usize)
    requires { (at < length words.old) × (n < 2 ^ 31) }
    ensures { words.new ≡ set words.old at (pos n) }
{
    words[at] = n as i32;
}
