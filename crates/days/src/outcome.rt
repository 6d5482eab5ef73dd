// What came of a command, with the list of what a build ran.
//
// `house::Told` is not this with another list: what is told owns none, as the list stands in the lent row, and only a day keeps it.
use script::Refusal;

#[derive(Drop)]
pub enum Outcome {
    Done,
    Refused(Refusal),
    Value {
        value: u64,
        // The items whose scripts were run, by rising number.
        ran: Vec<u64>,
    },
    Ring {
        ran: Vec<u64>,
    },
}
