#![tactic(auto)]

// What a session does, call by call, and what holds after every list of calls, whatever the shelf.
mod calls;
mod laws;
mod step;

pub use calls::{Answer, Call, Clash, Reply, State};
pub use laws::laws_over_runs;
pub use step::Step;
