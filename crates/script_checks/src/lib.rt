// Whether a script from outside is let in.
#![tactic(auto)]

mod whole;

pub use whole::{check_script, check_script_row};
