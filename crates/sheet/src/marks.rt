// Going from mark to mark in a row of bytes: lines end with a line feed, fields are parted by tabs.
ghost use Rattle.std.specs.Prelude.{◌≡◌};
ghost use Rattle.sheet.specs.Marks.{stop_from, next_from};

pub const TAB: u8 = 9;

pub const FEED: u8 = 10;

// The most bytes that a sheet has, or a station list.
pub const LONGEST: usize = 65536;

// The place of the first mark from a place on, or the end.
pub(crate) fn stop_from(bytes: &[u8], at: usize, mark: u8) -> usize
    ensures { result ≡ stop_from mark bytes.now at }
{
    for i in at..bytes.len() {
        if bytes[i] == mark {
            return i;
        }
    }
    at.max(bytes.len())
}

// The place behind the first mark from a place on, or the end.
#[tactic(auto, using(crate::proofs::Parted::next_more, crate::proofs::Parted::next_last))]
pub(crate) fn next_from(bytes: &[u8], at: usize, mark: u8) -> usize
    ensures { result ≡ next_from mark bytes.now at }
{
    let stop = stop_from(bytes, at, mark);
    if stop < bytes.len() {
        return stop + 1;
    }
    stop
}
