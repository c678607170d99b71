// A test of the check: reads tables from standard input, one to a line, and writes the check's number for each.
// A line has the table's length, then the place and the value of each word that is not the empty table's. `second tables` makes the lines.
#![tactic(auto)]

ghost use Rattle.std.specs.Prelude.{◌≤◌, length};

use figures::Table;
use jobs::number::read_number;
use sheet::fields::{field, field_count};
use sheet::lines::{line_at, next_at};
use std::io;
use table::given::number_given;
use words::border::natural;

// The number in field i, or 0 if it is none.
fn number_in(line: &[u8], i: usize) -> i32 {
    read_number(field(line, i)).unwrap_or(0)
}

// A word is set, if there is such a place.
fn put(words: &mut [i32], at: usize, v: i32) {
    if let Some(word) = words.get_mut(at) {
        *word = v;
    }
}

// Zeros become the empty table's words, with room for more behind.
fn blank(words: &mut [i32]) {
    put(words, 0, -1);
    for slot in 0..Table::SLOTS {
        put(words, 2 + Table::WIDTH * slot, -1);
    }
}

// The words that a line names behind its length, each by its place and its value.
fn poke(words: &mut [i32], line: &[u8]) {
    for pair in 0..field_count(line) / 2 {
        let at = natural(number_in(line, 2 * pair + 1));
        put(words, at, number_in(line, 2 * pair + 2));
    }
}

// What the check says of the first so many words, if there are so many.
fn given_of(words: &[i32], length: usize) -> Option<u8> {
    let table = words.get(..length)?;
    Some(number_given(audit::check(table)))
}

// What the check says of a line's table, if it is no longer than the room for it.
fn given_for(line: &[u8]) -> Option<u8> {
    let mut words = [0i32; Table::LENGTH + 1];
    blank(&mut words);
    poke(&mut words, line);
    given_of(&words, natural(number_in(line, 0)))
}

// A line whose table has no room is answered by 99, which no check gives.
fn say(rt: &impl Print, given: Option<u8>) -> io::Result<()> {
    let number = given.unwrap_or(99);
    println!(rt; "{number}")
}

// Reads until the buffer is full, the input ends or a read fails; so many bytes stand at the front of the buffer.
// Kept: not post::read_all, which hands on the error of a read; here a read that fails ends the input, and what came before it is answered.
fn read_full<R: io::Read>(reader: &mut R, buffer: &mut [u8]) -> usize
    ensures { result ≤ length buffer.new }
{
    let mut done = 0;
    // Kept: a while, since it jumps by as many bytes as a read gives; a for is no plainer, as no range has those places.
    while done < buffer.len() {
        let more = reader.read(&mut buffer[done..]).unwrap_or(0);
        if more == 0 {
            return done;
        }
        done += more;
    }
    done
}

fn main(rt: HostRuntime) -> io::Result<()> {
    let mut sheet = [0u8; 65536];
    let n = read_full(&mut rt.stdin(), &mut sheet);
    let text = &sheet[..n];
    let mut at = 0;
    // Kept: a while, since it jumps from line to line; a for is no plainer, as no range has those places.
    while at < text.len() {
        say(&rt, given_for(line_at(text, at)))?;
        at = next_at(text, at);
    }
    Ok(())
}
