// What is done to a desk, and what is told of it.
use build::Answer;

#[derive(Clone, Copy)]
pub enum Deed {
    Write(usize, u64),
    Give(usize, &'static [[u64; 4]]),
    // The item, the answer, the list, and how many entries are kept then.
    Build(u64, Answer, &'static [u64], u64),
}
