// Tests of builds: the worked day, what is remembered, long and wide desks, rings, and stores from elsewhere.
#![tactic(auto)]

mod answer;
mod deeds;
mod desk;
#[cfg(test)]
mod refused;
#[cfg(test)]
mod remembered;
mod spending;
#[cfg(test)]
mod wide;
#[cfg(test)]
mod worked;
