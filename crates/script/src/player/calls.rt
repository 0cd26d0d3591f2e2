ghost use Rattle.std.specs.Prelude.{◌≡◌};
ghost use Rattle.runs.specs.Laws.{Laws};
ghost use Rattle.runs.specs.Views.{opened};
ghost use Rattle.script.specs.Players.{Hand};
ghost use Rattle.script.specs.Plays.{Plays};
ghost use Rattle.session.specs.Logs.{Sound};
ghost use Rattle.session.specs.Sessions.{seen};

use crate::player::Player;
use crate::player::playing::call;
use crate::request::Request;
use runs::Answer;
use session::Session;
use shelf::Shelf;

impl<S: Shelf> Player<S> {
    // Opens a session over the shelf. No receipt is out.
    pub fn open(shelf: S) -> Player<S>
        ensures sound { Sound (S.Shelf.rules result.session.tied.shelf) (S.Shelf.told result.session.tied.shelf) result.session.tied.log }
        ensures rules { S.Shelf.rules result.session.tied.shelf ≡ S.Shelf.rules shelf }
        ensures view { seen result.session ≡ opened }
        ensures laws { Laws (S.Shelf.rules shelf) }
        ensures hand { Hand (seen result.session) result.held }
    {
        Player {
            session: Session::open(shelf),
            held: None,
        }
    }

    pub fn session(&self) -> &Session<S>
        ensures session { result.now ≡ self.now.session }
        ensures hand { Hand (seen self.now.session) self.now.held }
    {
        &self.session
    }

    // Carries out a request and gives its answer. A request that wants a receipt takes the one that is out; where none is, it is passed over,
    // and there is no answer.
    pub fn play(self, request: Request) -> (Player<S>, Option<Answer>)
        ensures sound { Sound (S.Shelf.rules result.0.session.tied.shelf) (S.Shelf.told result.0.session.tied.shelf) result.0.session.tied.log }
        ensures rules { S.Shelf.rules result.0.session.tied.shelf ≡ S.Shelf.rules self.session.tied.shelf }
        ensures plays { Plays (S.Shelf.rules self.session.tied.shelf) (seen self.session) request result.1 (seen result.0.session) }
        ensures hand { Hand (seen result.0.session) result.0.held }
    {
        let Player { mut session, held } = self;
        let (held, answer) = call(&mut session, held, request);
        (Player { session, held }, answer)
    }

    // Ends the session and gives its shelf back; where a clash stands, the session is closed first.
    pub fn finish(self) -> S
        ensures rules { S.Shelf.rules result ≡ S.Shelf.rules self.session.tied.shelf }
    {
        let Player { mut session, held } = self;
        if let Some(receipt) = held {
            // Not by `let .. else`, which would let go of what a refusal gives back.
            match session.close(receipt) {
                Ok(()) => (),
                Err(_) => unreachable(),
            }
        }
        session.into_shelf()
    }
}
