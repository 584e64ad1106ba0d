// Slots, what a plan costs in them, and whether leans show that none costs less.
#![tactic(auto)]

pub mod check;
pub mod limits;
pub mod list;
pub mod price;
pub mod refusal;
mod rules;
pub mod slot;
