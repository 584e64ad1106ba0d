// Tests of sheets and of what is said of them. Records are put together here, and not by the code that is tested.
#![tactic(auto)]

#[cfg(test)]
mod making;
#[cfg(test)]
mod reading;
#[cfg(test)]
mod refusals;
#[cfg(test)]
mod reports;
