// The candidate list as a lent row of records: a record is put in its place, and read back.
// It promises the one record, and that the others stay. It stands on nothing.
#![tactic(auto)]

ghost use Rattle.std.specs.Prelude.{◌≡◌, ◌<◌, length, set, get_or};
ghost use Rattle.record.specs.Blank.{none};

// Laid out for C and Rust programs too, with no hole between the fields: a blank list is then filled as plain bytes.
#[repr(C)]
#[derive(Clone, Copy)]
pub struct Candidate {
    pub number: u64,
    pub x: i32,
    pub y: i32,
    // The squared distance to the query's place.
    pub square: u64,
}

pub fn append(list: &mut [Candidate], at: usize, c: Candidate)
    requires { at < length list.old }
    ensures { list.new ≡ set list.old at c }
{
    list[at] = c;
}

pub fn record_at(list: &[Candidate], at: usize) -> Candidate
    requires { at < length list.now }
    ensures { result ≡ get_or list.now at none }
{
    list[at]
}
