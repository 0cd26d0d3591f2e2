mod moves;

use crate::log::Log;

// A shelf and the log of what was done over it. What moves them keeps that the shelf was told the literals of the trail, in order.
#[derive(Drop)]
pub struct Tied<S> {
    pub(crate) shelf: S,
    pub(crate) log: Log,
}
