// What a query writes on, lent by who asks many of them.
ghost use Rattle.std.specs.Prelude.{◌≡◌, ◌≤◌, length, take};

// The rows of its walk, and the numbers of the candidates that pass its final test.
// Kept: five loans side by side and no `Rows` among them: of a struct of loans within a struct its owner is told nothing of the rows afterwards, which `answer` promises word for word (what may not change).
// Kept: how wide it is, each call asks for itself: `answer` for room for the points there are (`Askable`), the calls of desk for 500, which as an invariant would ask more of who calls `answer`.
#[derive(Drop)]
pub struct Slate<'a> {
    pub numbers: &'a mut [u32],
    pub xs: &'a mut [u64],
    pub ys: &'a mut [u64],
    pub bars: &'a mut [u64],
    pub kept: &'a mut [u32],
}

impl Slate<'_> {
    // The first n numbers kept.
    pub(crate) fn kept(&self, n: usize) -> &[u32]
        requires { n ≤ length self.now.kept.now }
        ensures { result.now ≡ take n self.now.kept.now }
    {
        &self.kept[..n]
    }
}
