// The slip: the bytes of an output line, laid into a lent buffer from a place on. Each method moves the place behind its bytes.
// It promises, by the definitions in specs/, every byte of an output line, and that every other byte of the buffer stays.
// It stands on sheet (the marks), jobs (the letters) and order (lists).
#![tactic(auto)]

ghost use Rattle.std.specs.Prelude.{◌≡◌, [], ◌∷◌, ◌++◌, map, ◌+◌, ◌*◌, ◌≤◌, ◌<◌, length};
ghost use Rattle.slip.specs.Output.{decimal, tabbed, head_of, output_line, Laid};
ghost use Rattle.jobs.specs.Job.{QUERY, CARD};
ghost use Rattle.sheet.specs.Bytes.{TAB, FEED};

use sheet::marks::{FEED, TAB};

// A lent buffer, and the place in it where the next byte goes.
#[derive(Drop)]
pub struct Slip<'a> {
    pub out: &'a mut [u8],
    pub at: usize,
}

// How many digits a number has.
#[tactic(auto, using(crate::proofs::Decimal::count_power, crate::proofs::Decimal::count_small))]
fn digit_count(n: u64) -> usize
    ensures { result ≡ length (decimal n) }
{
    match n.checked_ilog10() {
        Some(tens) => tens as usize + 1,
        None => 1,
    }
}

// Kept: each method promises the bytes and that the loan is the same in two clauses, as a lent field wants it; one word for both would be taken apart in each proof, no plainer.
impl Slip<'_> {
    // One byte.
    pub fn byte(&mut self, b: u8)
        requires { self.old.at < length self.old.out.now }
        ensures laid { Laid self.old.out.now self.old.at (b ∷ []) self.new.out.now self.new.at }
        ensures same_out { self.new.out.ghost_name ≡ self.old.out.ghost_name }
    {
        self.out[self.at] = b;
        self.at += 1;
    }

    // The tab in front of a further field.
    fn tab(&mut self)
        requires { self.old.at < length self.old.out.now }
        ensures laid { Laid self.old.out.now self.old.at (TAB ∷ []) self.new.out.now self.new.at }
        ensures same_out { self.new.out.ghost_name ≡ self.old.out.ghost_name }
    {
        self.byte(TAB);
    }

    // Kept: the digits by hand, no Display: `Laid` says that every byte behind them stays, which no writer of std says of a buffer that is lent in part (what may not change).
    // A number in decimal digits, from the last to the first. No number of 64 bits has more than 20.
    pub fn decimal(&mut self, n: u64)
        requires { self.old.at + 20 ≤ length self.old.out.now }
        ensures laid { Laid self.old.out.now self.old.at (decimal n) self.new.out.now self.new.at }
        ensures same_out { self.new.out.ghost_name ≡ self.old.out.ghost_name }
    {
        let count = digit_count(n);
        let mut rest = n;
        for i in (0..count).rev() {
            self.out[self.at + i] = b'0' + (rest % 10) as u8;
            rest /= 10;
        }
        self.at += count;
    }

    // A further number, after a tab.
    pub fn number(&mut self, n: u64)
        requires { self.old.at + 21 ≤ length self.old.out.now }
        ensures laid { Laid self.old.out.now self.old.at (tabbed (decimal n ∷ [])) self.new.out.now self.new.at }
        ensures same_out { self.new.out.ghost_name ≡ self.old.out.ghost_name }
    {
        self.tab();
        self.decimal(n);
    }

    // Numbers, each after a tab.
    pub fn numbers(&mut self, numbers: &[u32])
        requires { self.old.at + 21 * length numbers.now ≤ length self.old.out.now }
        ensures laid { Laid self.old.out.now self.old.at (tabbed (map decimal numbers.now)) self.new.out.now self.new.at }
        ensures same_out { self.new.out.ghost_name ≡ self.old.out.ghost_name }
    {
        for n in numbers {
            self.number(u64::from(*n));
        }
    }

    // The line's number, its letter and the number given back.
    pub fn head(&mut self, number: u64, letter: u8, given: u8)
        requires { self.old.at + 43 ≤ length self.old.out.now }
        ensures laid { Laid self.old.out.now self.old.at (head_of number letter given) self.new.out.now self.new.at }
        ensures same_out { self.new.out.ghost_name ≡ self.old.out.ghost_name }
    {
        self.decimal(number);
        self.tab();
        self.byte(letter);
        self.number(u64::from(given));
    }

    // The three numbers of a granted query: answers, candidates, nodes opened.
    fn counts(&mut self, n: usize, m: usize, o: usize)
        requires { self.old.at + 63 ≤ length self.old.out.now }
        ensures laid { Laid self.old.out.now self.old.at (tabbed (map decimal (n ∷ m ∷ o ∷ []))) self.new.out.now self.new.at }
        ensures same_out { self.new.out.ghost_name ≡ self.old.out.ghost_name }
    {
        self.number(n as u64);
        self.number(m as u64);
        self.number(o as u64);
    }

    // An output line with no further numbers.
    pub fn line(&mut self, number: u64, letter: u8, given: u8)
        requires { self.old.at + 44 ≤ length self.old.out.now }
        ensures laid { Laid self.old.out.now self.old.at (output_line number letter given []) self.new.out.now self.new.at }
        ensures same_out { self.new.out.ghost_name ≡ self.old.out.ghost_name }
    {
        self.head(number, letter, given);
        self.byte(FEED);
    }

    // The end of a line that lists: numbers, each after a tab, and the line feed.
    fn list(&mut self, numbers: &[u32])
        requires { self.old.at + (1 + 21 * length numbers.now) ≤ length self.old.out.now }
        ensures laid { Laid self.old.out.now self.old.at (tabbed (map decimal numbers.now) ++ FEED ∷ []) self.new.out.now self.new.at }
        ensures same_out { self.new.out.ghost_name ≡ self.old.out.ghost_name }
    {
        self.numbers(numbers);
        self.byte(FEED);
    }

    // The output line of a granted query: how many answers, its m and o, and the answers.
    pub fn answers(&mut self, number: u64, m: usize, o: usize, answers: &[u32])
        requires { self.old.at + (107 + 21 * length answers.now) ≤ length self.old.out.now }
        ensures laid { Laid self.old.out.now self.old.at (output_line number QUERY 0 (length answers.now ∷ m ∷ o ∷ answers.now)) self.new.out.now self.new.at }
        ensures same_out { self.new.out.ghost_name ≡ self.old.out.ghost_name }
    {
        self.head(number, b'Q', 0);
        self.counts(answers.len(), m, o);
        self.list(answers);
    }

    // The output line of a granted card: how many names, and the names.
    pub fn names(&mut self, number: u64, names: &[u32])
        requires { self.old.at + (65 + 21 * length names.now) ≤ length self.old.out.now }
        ensures laid { Laid self.old.out.now self.old.at (output_line number CARD 0 (length names.now ∷ names.now)) self.new.out.now self.new.at }
        ensures same_out { self.new.out.ghost_name ≡ self.old.out.ghost_name }
    {
        self.head(number, b'K', 0);
        self.number(names.len() as u64);
        self.list(names);
    }
}
