// The holder whose card it is: its number, and where it stands.
ghost use Rattle.grid.specs.Place.{PlaceOnGrid};

use grid::place::Place;

#[derive(Clone, Copy)]
pub struct Holder {
    pub number: usize,
    pub place: Place,
    pub ghost on_grid: { PlaceOnGrid place },
}
