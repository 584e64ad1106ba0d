// Journals as text: the calls that lines stand for, and the lines that tell answers.
#![tactic(auto)]

mod bytes;
pub mod entry;
pub mod fault;
mod line;
mod number;
pub mod parse;
pub mod report;
