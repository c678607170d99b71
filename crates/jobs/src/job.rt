// From a line to its job. The first letter decides.
ghost use Rattle.std.specs.Prelude.{◌≡◌, [], drop, get_or};
ghost use Rattle.sheet.specs.Bytes.{fields_of};
ghost use Rattle.jobs.specs.Number.{read_number};
ghost use Rattle.jobs.specs.Job.{enrol_job, withdraw_job, query_job, card_job, job_of};

use crate::number::read_number;
use sheet::fields::{field, field_count};

// What a line asks for, with its numbers as they stand: whether they are in range is decided later.
// Kept: an enum of its own, no plainer as an Option of a job, since a misshapen line is answered by an output line like every job.
#[derive(Clone, Copy, PartialEq, Eq)]
pub enum Job {
    // Number, x, y.
    Enrol(i32, i32, i32),
    // Number.
    Withdraw(i32),
    // x, y, k.
    Query(i32, i32, i32),
    // Number, k.
    Card(i32, i32),
    // The letter of a line that lacks its k, where all before it is sound.
    MissingK(u8),
    Misshapen,
}

// The number in field i of a line, or that it is none.
fn number_in(line: &[u8], i: usize) -> Option<i32>
    ensures { result ≡ read_number (get_or (fields_of line.now) i []) }
{
    read_number(field(line, i))
}

// A line that starts with E: number, x and y, and nothing more.
fn enrol_job(line: &[u8]) -> Job
    ensures { result ≡ enrol_job (drop 1 (fields_of line.now)) }
{
    if field_count(line) != 4 {
        return Job::Misshapen;
    }
    let Some(number) = number_in(line, 1) else {
        return Job::Misshapen;
    };
    let Some(x) = number_in(line, 2) else {
        return Job::Misshapen;
    };
    let Some(y) = number_in(line, 3) else {
        return Job::Misshapen;
    };
    Job::Enrol(number, x, y)
}

// A line that starts with W: a number, and nothing more.
fn withdraw_job(line: &[u8]) -> Job
    ensures { result ≡ withdraw_job (drop 1 (fields_of line.now)) }
{
    if field_count(line) != 2 {
        return Job::Misshapen;
    }
    let Some(number) = number_in(line, 1) else {
        return Job::Misshapen;
    };
    Job::Withdraw(number)
}

// A line that starts with Q. Its k may be missing only where x and y are sound, so those are read first.
fn query_job(line: &[u8]) -> Job
    ensures { result ≡ query_job (drop 1 (fields_of line.now)) }
{
    if !(3..=4).contains(&field_count(line)) {
        return Job::Misshapen;
    }
    let Some(x) = number_in(line, 1) else {
        return Job::Misshapen;
    };
    let Some(y) = number_in(line, 2) else {
        return Job::Misshapen;
    };
    // Past the last field there are only empty ones, so this is empty too if the field is not there.
    if field(line, 3).is_empty() {
        return Job::MissingK(b'Q');
    }
    let Some(k) = number_in(line, 3) else {
        return Job::Misshapen;
    };
    Job::Query(x, y, k)
}

// A line that starts with K. Its k may be missing only where the number is sound, so that is read first.
fn card_job(line: &[u8]) -> Job
    ensures { result ≡ card_job (drop 1 (fields_of line.now)) }
{
    if !(2..=3).contains(&field_count(line)) {
        return Job::Misshapen;
    }
    let Some(number) = number_in(line, 1) else {
        return Job::Misshapen;
    };
    // Past the last field there are only empty ones, so this is empty too if the field is not there.
    if field(line, 2).is_empty() {
        return Job::MissingK(b'K');
    }
    let Some(k) = number_in(line, 2) else {
        return Job::Misshapen;
    };
    Job::Card(number, k)
}

// What a line asks for. The first field is the letter alone, so an empty line is misshapen.
#[tactic(auto, using(crate::proofs::Jobs::unlettered))]
pub fn job_of(line: &[u8]) -> Job
    ensures { result ≡ job_of line.now }
{
    let [letter] = field(line, 0) else {
        return Job::Misshapen;
    };
    match *letter {
        b'E' => enrol_job(line),
        b'W' => withdraw_job(line),
        b'Q' => query_job(line),
        b'K' => card_job(line),
        _ => Job::Misshapen,
    }
}
