// Tests of scripts, the runner, commands and the reader of a day, on examples whose answers come from the rules.
#![tactic(auto)]

#[cfg(test)]
mod commands;
#[cfg(test)]
mod counted;
#[cfg(test)]
mod cuts;
mod files;
#[cfg(test)]
mod head;
#[cfg(test)]
mod lines;
mod pieces;
#[cfg(test)]
mod reading;
#[cfg(test)]
mod running;
