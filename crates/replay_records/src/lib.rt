// A stored answer of the Rust original: its numbers, its lent sheet, and whether another answer is the same.
// docs/ORACLE.md has the layout of a record.

#![tactic(auto)]

pub mod lent;
pub mod numbers;
pub mod operation;
pub mod record;
pub mod sheets;
pub mod stored;
mod words;
