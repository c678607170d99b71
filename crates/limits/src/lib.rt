// The limits of what may be asked: 3, 4 and 5 of the table of refusals, which speak of numbers alone and of no table.
// It promises that each line says yes exactly where its definition in specs/ does.
// It stands on words (a word as a natural, as a coordinate), grid (a place) and figures (the highest number); its definitions on table (a range).
#![tactic(auto)]

ghost use Rattle.std.specs.Prelude.{◌≡◌};
ghost use Rattle.limits.specs.Limits.{no_such_number, off_grid, no_such_k};

use figures::Table;
use grid::site::Site;
use words::border;

// 3: point number outside 1 to 9,999.
pub fn no_such_number(number: i32) -> bool
    ensures { result ≡ no_such_number number }
{
    !(1..=Table::HIGHEST).contains(&border::natural(number))
}

// 4: a coordinate off the grid.
pub fn off_grid(p: Site) -> bool
    ensures { result ≡ off_grid p }
{
    !border::on_grid(p.x) || !border::on_grid(p.y)
}

// 5: k outside 1 to 16.
pub fn no_such_k(k: i32) -> bool
    ensures { result ≡ no_such_k k }
{
    !(1..=16).contains(&border::natural(k))
}
