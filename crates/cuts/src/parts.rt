// The parts of a row of bytes, by the place where each starts.
ghost use Rattle.std.specs.Prelude.{◌≡◌, ◌&&◌, ◌≤◌, ◌<◌, length, drop};
ghost use Rattle.cuts.specs.Cuts.{QUOTE, marked, width};
ghost use Rattle.cuts.specs.Places.{is_outside, crossed, stop_at, part_at, next_at};

// What parts the bytes: records end at a CR LF, fields at a comma.
#[derive(Clone, Copy, PartialEq, Eq)]
pub enum Mark {
    LineEnd,
    Comma,
}

// On which side of the quote marks a byte stands: outside after an even number of them.
#[derive(Clone, Copy, PartialEq, Eq)]
enum Side {
    Outside,
    Inside,
}

impl Side {
    // The other side, behind a quote mark.
    fn other(self) -> Side
        ensures { is_outside result ≡ crossed QUOTE (is_outside self) }
    {
        match self {
            Side::Outside => Side::Inside,
            Side::Inside => Side::Outside,
        }
    }

    // The side behind a byte.
    fn behind(self, b: u8) -> Side
        ensures { is_outside result ≡ crossed b (is_outside self) }
    {
        match b {
            b'"' => self.other(),
            _ => self,
        }
    }
}

impl Mark {
    // Whether the mark stands at a place.
    fn stands(self, bytes: &[u8], i: usize) -> bool
        requires { i < length bytes.now }
        ensures { result ≡ marked self (drop i bytes.now) }
    {
        match self {
            Mark::LineEnd => bytes[i..].starts_with(b"\r\n"),
            Mark::Comma => bytes[i] == b',',
        }
    }

    // Whether the bytes are cut at a place: the mark stands there, outside quotes.
    fn cuts(self, bytes: &[u8], i: usize, side: Side) -> bool
        requires { i < length bytes.now }
        ensures { result ≡ (marked self (drop i bytes.now) && is_outside side) }
    {
        side == Side::Outside && self.stands(bytes, i)
    }

    // How many bytes a mark is.
    fn width(self) -> usize
        ensures { result ≡ width self }
    {
        match self {
            Mark::LineEnd => 2,
            Mark::Comma => 1,
        }
    }
}

// Kept: bytes and a place in them as two, as an index has them; a struct of both would be made for each part, no plainer.
// The place where the part that starts at a place ends.
pub(crate) fn stop_at(bytes: &[u8], at: usize, mark: Mark) -> usize
    ensures { result ≡ stop_at mark bytes.now at }
{
    let mut side = Side::Outside;
    for i in at..bytes.len() {
        if mark.cuts(bytes, i, side) {
            return i;
        }
        side = side.behind(bytes[i]);
    }
    at.max(bytes.len())
}

// That part, as a part of the bytes.
#[tactic(auto, using(crate::proofs::Parted::stop_within))]
pub fn part_at(bytes: &[u8], at: usize, mark: Mark) -> &[u8]
    requires { at ≤ length bytes.now }
    ensures { result.now ≡ part_at mark bytes.now at }
{
    let end = stop_at(bytes, at, mark);
    &bytes[at..end]
}

// The place where the next part starts: behind the mark. If there is none it is the end.
#[tactic(auto, using(crate::proofs::Parted::next_more, crate::proofs::Parted::next_last))]
pub fn next_at(bytes: &[u8], at: usize, mark: Mark) -> usize
    ensures { result ≡ next_at mark bytes.now at }
{
    let stop = stop_at(bytes, at, mark);
    if stop < bytes.len() {
        return stop + mark.width();
    }
    stop
}
