// The sheet: a day of written curves as bytes, and back.
#![tactic(auto)]

mod body;
pub mod fault;
mod fields;
mod kinds;
pub mod read;
mod reader;
mod record;
pub mod sheets;
pub mod write;
mod writer;
