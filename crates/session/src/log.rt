mod admitting;
mod growing;

use runs::{State, Step};
use told::Trail;

// What a session keeps beside its shelf: the trail, the state and the level.
#[derive(Drop)]
pub struct Log {
    pub(crate) trail: Trail<Step>,
    pub(crate) state: State,
    pub(crate) level: u8,
}
