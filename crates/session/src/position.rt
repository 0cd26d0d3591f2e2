mod reading;

// What is told of a switch: three names, where an `Option<bool>` would need its cases explained at each use.
#[derive(Clone, Copy, Debug, PartialEq, Eq, Hash)]
pub enum Position {
    On,
    Off,
    Free,
}
