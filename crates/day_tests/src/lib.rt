// Tests of days through their public calls. Every expected number is worked out by hand from the rules, or found by trying all plans.
#![tactic(auto)]

#[cfg(test)]
mod checks;
#[cfg(test)]
mod edits;
#[cfg(test)]
mod follows;
#[cfg(test)]
mod holding;
pub mod making;
#[cfg(test)]
mod plans;
#[cfg(test)]
mod prices;
#[cfg(test)]
mod small_days;
