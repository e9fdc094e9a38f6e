// What C calls, by way of crate dulimasca_c: a log's definition, the count of a section, one frame's values, the rows of a walk, a field's name.
// Numbers and byte slices alone: a definition and a walk travel as bytes (crate store), an answer is one number, and eight more go to lent bytes.
// A refusal writes nothing.
#![tactic(auto)]

pub mod log;
mod telling;
pub mod walking;
