mod calls;
mod tells;

use crate::tied::Tied;
use shelf::Shelf;
use std::marker::Model;

// A shelf with the log of what was done over it.
#[derive(Drop)]
pub struct Session<S: Shelf> {
    pub(crate) tied: Tied<S>,
}

// A clause sees the field. The shelf was told the literals of the trail, and some list of calls led here. A model says so and no ghost field:
// one that cites a bound would keep a session over `Plain`, which only a generic `impl` makes a shelf, out of every caller's struct.
impl<S: Shelf> Model for Session<S> {
    ghost use Rattle.session.specs.Logs.{Sound};
    ghost use Rattle.session.specs.Sessions.{Session as Seen};

    ghost Value = { Seen S };

    ghost view = { λ x. record { tied = x.tied } };

    ghost invariant = { λ x. Sound (S.Shelf.rules x.tied.shelf) (S.Shelf.told x.tied.shelf) x.tied.log };
}
