// Tests of whole days of commands, on examples whose answers come from the rules.
#![tactic(auto)]

mod days;
mod draft;
mod lent;
mod lent_house;
#[cfg(test)]
mod limits;
#[cfg(test)]
mod refusals;
mod scripts;
#[cfg(test)]
mod sharing;
#[cfg(test)]
mod snow_load;
mod step;
#[cfg(test)]
mod storing;
#[cfg(test)]
mod worked;
