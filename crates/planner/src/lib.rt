// The planner: of the cheapest plans of a day, the coldest.
#![tactic(auto)]

mod leans;
pub mod plan;
mod sweep;
mod walk;
