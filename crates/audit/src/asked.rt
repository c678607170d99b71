// A rule is asked of one slot after the other by one loop, which is handed the rule. Rule 4 has its own, in numbers: it marks a map as it goes.
ghost use Rattle.std.specs.Prelude.{ℕ, ◌<◌};
ghost use Rattle.figures.specs.Figures.{SLOTS};
ghost use Rattle.audit.specs.Asked.{LowestNo};

use figures::Table;

// The lowest slot where a rule is broken; none if it holds at every one.
pub fn first_broken<F: Fn(usize) -> bool>(holds: F) -> Option<usize>
    requires { (slot : ℕ) → slot < SLOTS → F.pre holds slot }
    ensures { LowestNo (F.post holds) SLOTS result }
{
    for slot in 0..Table::SLOTS {
        if !holds(slot) {
            return Some(slot);
        }
    }
    None
}
