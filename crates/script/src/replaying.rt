ghost use Rattle.std.specs.Prelude.{◌≡◌, IfOk, OnOk};
ghost use Rattle.runs.specs.Laws.{Laws};
ghost use Rattle.script.specs.Players.{Hand};
ghost use Rattle.script.specs.Plays.{Replayed};
ghost use Rattle.session.specs.Logs.{Sound};
ghost use Rattle.session.specs.Sessions.{seen};

use crate::player::Player;
use crate::request::Request;
use runs::Answer;
use shelf::Shelf;
use std::alloc::{AllocError, Global};

// A session after a list of requests, with the answer to each; a request that was passed over has none.
pub struct Played<S: Shelf> {
    pub player: Player<S>,
    pub answers: Vec<Option<Answer>>,
}

// Opens a session over the shelf and carries out the requests, in order. Memory for the answers is taken first; where there is none, nothing
// is done.
pub fn replay<S: Shelf + Drop>(
    heap: Global,
    shelf: S,
    requests: &[Request],
) -> Result<Played<S>, AllocError>
    ensures sound { IfOk result (λ x. Sound (S.Shelf.rules x.player.session.tied.shelf) (S.Shelf.told x.player.session.tied.shelf) x.player.session.tied.log) }
    ensures rules { IfOk result (λ x. S.Shelf.rules x.player.session.tied.shelf ≡ S.Shelf.rules shelf) }
    ensures replayed { IfOk result (λ x. Replayed (S.Shelf.rules shelf) requests.now x.answers.items (seen x.player.session)) }
    ensures laws { OnOk result (Laws (S.Shelf.rules shelf)) }
    ensures hand { IfOk result (λ x. Hand (seen x.player.session) x.player.held) }
{
    let mut answers = Vec::with_capacity(heap, requests.len())?;
    let mut player = Player::open(shelf);
    for request in requests {
        let (next, answer) = player.play(*request);
        player = next;
        answers.push_reserved(answer);
    }
    Ok(Played { player, answers })
}
