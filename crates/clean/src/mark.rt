// How far a build has come with an item.

#[derive(Clone, Copy)]
pub enum Mark {
    Unseen,
    // Its script runs, or ran into a ring.
    Open,
    Known(u64),
}
