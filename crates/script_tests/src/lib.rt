// Tests of journals as text, and of runs of calls. Each text is short enough to read by eye.
#![tactic(auto)]

#[cfg(test)]
mod faults;
#[cfg(test)]
mod reports;
#[cfg(test)]
mod squares;
