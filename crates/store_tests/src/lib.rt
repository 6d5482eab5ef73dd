// Tests of entries, the store and the commands that change it, on examples whose answers come from the rules.
#![tactic(auto)]

#[cfg(test)]
mod commands;
mod examples;
#[cfg(test)]
mod foreign;
#[cfg(test)]
mod moving;
#[cfg(test)]
mod order;
#[cfg(test)]
mod replaying;
#[cfg(test)]
mod room;
