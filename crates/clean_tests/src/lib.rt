// Tests of the clean build on desks whose answers come from the rules.
#![tactic(auto)]

#[cfg(test)]
mod chains;
mod desks;
#[cfg(test)]
mod refusals;
#[cfg(test)]
mod rings;
#[cfg(test)]
mod worked;
