// What is counted over all days, and how it is printed.
use super::counter::Counter;
use super::refusals::Refusals;
use std::fmt;

#[derive(Clone, Copy, Default)]
pub struct Tally {
    pub commands: Counter,
    // Commands after which something is otherwise than the rules have it.
    pub wrong: Counter,
    // Builds that were answered, and those with the clean build's answer.
    pub builds: Counter,
    pub agreed: Counter,
    // Builds whose list is part of the clean build's list.
    pub within: Counter,
    pub values: Counter,
    pub rings: Counter,
    pub cache_hits: Counter,
    // Builds that were made again at once, where all that the first one left was kept.
    pub again: Counter,
    pub again_hits: Counter,
    pub believed: Counter,
    pub disbelieved: Counter,
    // Entries in the stores at the ends of the days, and those that replay.
    pub entries: Counter,
    pub honest: Counter,
    pub refused: Counter,
    // Refused commands that left the three rows as they were.
    pub unchanged: Counter,
    pub refusals: Refusals,
}

impl fmt::Display for Tally {
    fn fmt<W: fmt::Write>(&self, f: &mut fmt::Formatter<W>) -> fmt::Result {
        writeln!(
            f,
            "{} commands, {} otherwise than the rules have it",
            self.commands, self.wrong
        )?;
        writeln!(
            f,
            "{} builds, {} agreed, {} ran only what the clean build runs",
            self.builds, self.agreed, self.within
        )?;
        writeln!(
            f,
            "{} values, {} rings, {} ran nothing",
            self.values, self.rings, self.cache_hits
        )?;
        writeln!(
            f,
            "{} built again at once, {} ran nothing then",
            self.again, self.again_hits
        )?;
        writeln!(
            f,
            "{} imports believed, {} refused",
            self.believed, self.disbelieved
        )?;
        writeln!(
            f,
            "{} entries at the ends of days, {} honest",
            self.entries, self.honest
        )?;
        writeln!(
            f,
            "{} refused, {} changed nothing",
            self.refused, self.unchanged
        )?;
        writeln!(f, "{}", self.refusals)
    }
}
