// Any run of calls on a day, sheets among them, made anew from the start.
#![tactic(auto)]

pub mod answer;
pub mod call;
pub mod replay;
