// When each call refuses, line by line in document 01's order, and what a query or a card hands back that is not granted.
// It promises what an enrolment, a withdrawal or a query gives on a table that passes the check, and the counts that go with a refusal.
// It stands on table (the slots), limits (3, 4 and 5), audit (what passes the check) and the query below it (its reply). What a call leaves behind is said in desk.
#![tactic(auto)]

pub mod answered;
pub mod carding;
pub mod enrolling;
pub mod querying;
pub mod refuse;
pub mod withdrawing;
