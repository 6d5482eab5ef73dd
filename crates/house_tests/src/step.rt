// A step of a day of commands, with what is told of it.
use super::draft::Draft;
use house::Told;

#[derive(Clone, Copy)]
pub enum Step {
    // A command, and what is told of it.
    Do(Draft, Told),
    // A desk and an item, what a build of it tells, the list of what it ran, and how many entries are kept then.
    Build(u64, u64, Told, &'static [u64], u64),
}
