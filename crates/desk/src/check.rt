// The table check: 1, 2.
ghost use Rattle.std.specs.Prelude.{◌≡◌};
ghost use Rattle.audit.specs.Check.{check_gives};

use table::given::Given;

// Whether a lent slice is a table that is well formed. It stays as it is.
pub fn check(table: &[i32]) -> Given
    ensures { result ≡ check_gives table.now }
{
    audit::check(table)
}
