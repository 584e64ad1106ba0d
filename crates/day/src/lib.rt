// A day of slots over lent memory, the plan that costs least in it, and plans that were checked.
#![tactic(auto)]

pub mod answers;
pub mod check;
pub mod day;
pub mod edits;
pub mod following;

// A day's callers name its slots and refusals here too.
pub use slots::{limits, price, refusal, slot};
