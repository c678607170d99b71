// One axis of a rectangle: a stretch of steps. What serves both axes is here, once.
ghost use Rattle.std.specs.Prelude.{◌≡◌, ◌+◌, ◌-◌, ◌*◌};
ghost use Rattle.axis.specs.Axis.{OnGrid, SpanOnGrid, sq, span_grown, span_length, span_sum, gap};

#[derive(Clone, Copy, PartialEq, Eq)]
pub struct Span {
    pub low: u64,
    pub high: u64,
}

// Kept: a public function with an edit of its own, `beyond_turned` (what may not change); its body is std's.
// How far a lies beyond b; 0 if it does not.
pub fn beyond(a: u64, b: u64) -> u64
    ensures { result ≡ a - b }
{
    a.saturating_sub(b)
}

// The squared distance of two coordinates. The square of a signed difference does not ask which is the greater.
pub fn square(a: u64, b: u64) -> u64
    requires { OnGrid a × OnGrid b }
    ensures { result ≡ sq a b }
{
    let d = a as i64 - b as i64;
    (d * d) as u64
}

impl Span {
    // The least span that covers both: a new one.
    pub fn grown(self, other: Span) -> Span
        ensures { result ≡ span_grown self other }
    {
        Span {
            low: self.low.min(other.low),
            high: self.high.max(other.high),
        }
    }

    pub fn length(self) -> u64
        ensures { result ≡ span_length self }
    {
        beyond(self.high, self.low)
    }

    // Low and high together: what a split orders by.
    pub fn sum(self) -> u64
        requires { SpanOnGrid self }
        ensures { result ≡ span_sum self }
    {
        self.low + self.high
    }

    // The squared distance from a coordinate to the nearest of the span; 0 inside.
    pub fn gap_square(self, at: u64) -> u64
        requires { SpanOnGrid self × OnGrid at }
        ensures { result ≡ gap self at * gap self at }
    {
        let d = beyond(self.low, at) + beyond(at, self.high);
        d * d
    }
}
