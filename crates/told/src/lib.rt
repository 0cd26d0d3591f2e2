#![tactic(auto)]

// Literals in order, no switch twice, with the set of them: as a shelf is told them, and as a session's trail has them.
mod says;
mod told;
mod trail;

pub use says::Says;
pub use told::Told;
pub use trail::Trail;
