// The answers of a query, written in rising order.
ghost use Rattle.std.specs.Prelude.{◌≡◌, ◌≤◌, length};
ghost use Rattle.filter.specs.Meaning.{rising};
ghost use Rattle.filter.specs.Query.{laid_over};

// The kept numbers go in rising order to the front of the answer list; the rest of it stays.
pub fn put_rising(kept: &[u32], answers: &mut [u32])
    requires { length kept.now ≤ length answers.old }
    ensures { answers.new ≡ laid_over (rising kept.now) answers.old }
{
    // Kept: one number after the other, no copy_from_slice: std's copy would make the static library call memmove, which it asks of nobody otherwise.
    for (i, number) in kept.iter().enumerate() {
        answers[i] = *number;
    }
    let front = &mut answers[..kept.len()];
    front.sort_unstable();
}
