// What a line of the job sheet asks for: the numbers in its fields, and its job.
// It promises, for every line, the job that the definitions in specs/ give it.
// It stands on sheet (fields), and on order and table (definitions alone).
#![tactic(auto)]

pub mod job;
pub mod number;
