// What is said of a sheet: its plan, or why it is refused.
#![tactic(auto)]

mod checked;
mod lines;
pub mod report;
pub mod text;
