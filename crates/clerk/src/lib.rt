// The clerk runs a job sheet: each line's job on the table and the answer list, and the bytes of each output line.
// It promises, by the definition of a whole sheet in specs/, every byte that is laid, the table and the answer list after each line, and what a line leaves on the slate that the queries write on.
// It stands on sheet (its lines), jobs (what a line asks for), slip (the bytes of an output line) and desk (the calls on a table that passes the check).
#![tactic(auto)]

pub mod line;
pub mod run;
pub mod start;
