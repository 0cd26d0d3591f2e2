ghost use Rattle.runs.specs.Laws.{Agree, Alike, chosen_in, Same};
ghost use Rattle.session.specs.Sessions.{seen};
ghost use Rattle.shelf.specs.Meanings.{Match};
ghost use Rattle.std.specs.Prelude.{Decides};

use session::Session;
use shelf::Shelf;

// Two sessions tell level, free count, trail length and every switch alike. Where their rules match and the same literals are chosen, in any
// order, two settled sessions do, and never is one settled and one clashed.
pub fn alike<A: Shelf, B: Shelf>(first: &Session<A>, second: &Session<B>) -> bool
    ensures alike { Decides result (Alike (seen first.now) (seen second.now)) }
    ensures agree { Match (A.Shelf.rules first.now.tied.shelf) (B.Shelf.rules second.now.tied.shelf) → Same (chosen_in (seen first.now).trail) (chosen_in (seen second.now).trail) → Agree (seen first.now) (seen second.now) }
{
    first.laws();
    second.laws();
    // The set of what stands tells how long the trail is and how many switches are free: no switch stands twice.
    first.level() == second.level() && first.standing() == second.standing()
}
