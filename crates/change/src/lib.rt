// What enrolment and withdrawal share: the entry that is chosen on the way down, the order of nine or ten entries and its cut.
// It promises each by the definitions in specs/, and its proofs hold the laws of planted trees that both rest on.
// It stands on table (nodes and slots), grid (rectangles) and order (the stable order); its proofs stand on rules (the theorem about trees).
#![tactic(auto)]

pub mod choose;
pub mod share;
