// The bytes of the job sheet: its lines, their fields, its reader.
// It promises which bytes each line and each field are, by the definitions in specs/.
// It stands on order (lists).
#![tactic(auto)]

pub mod fields;
pub mod lines;
pub mod marks;
pub mod reader;
