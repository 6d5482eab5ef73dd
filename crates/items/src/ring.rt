// Why an item has no value.

// An item is needed for itself on the way to its value, and that ends a build.
#[derive(Clone, Copy, PartialEq, Debug)]
pub struct Ring;
