ghost use Rattle.std.specs.Prelude.{◌≡◌, Some, None, MatchResult};
ghost use Rattle.script.specs.Players.{given, Hand};
ghost use Rattle.script.specs.Plays.{Plays};
ghost use Rattle.session.specs.Outcomes.{done, settled, spent};
ghost use Rattle.session.specs.Logs.{Sound};
ghost use Rattle.session.specs.Sessions.{seen};

use crate::request::Request;
use literals::Refusal;
use runs::{Answer, Clash, Reply};
use session::{Outcome, Receipt, Returned, Session};
use shelf::Shelf;

// Makes the call that a request asks for: what is held afterwards, and the answer, none where the request wants a receipt and none is held.
pub(crate) fn call<S: Shelf>(
    session: &mut Session<S>,
    held: Option<Receipt>,
    request: Request,
) -> (Option<Receipt>, Option<Answer>)
    requires hand { Hand (seen session.old) held }
    ensures hand { Hand (seen session.new) result.0 }
    ensures sound { Sound (S.Shelf.rules session.new.tied.shelf) (S.Shelf.told session.new.tied.shelf) session.new.tied.log }
    ensures rules { S.Shelf.rules session.new.tied.shelf ≡ S.Shelf.rules session.old.tied.shelf }
    ensures plays { Plays (S.Shelf.rules session.old.tied.shelf) (seen session.old) request result.1 (seen session.new) }
{
    // It does nothing, and says that the session is sound where a request is passed over.
    session.laws();
    match request {
        Request::Settle => match held {
            None => after_settle(session.settle()),
            // While a receipt is held a clash stands, and a settle is refused.
            Some(receipt) => match session.settle() {
                Ok(_) => unreachable(),
                Err(refusal) => (Some(receipt), Some(Err(refusal))),
            },
        },
        Request::Choose(n) => (held, Some(done(session.choose(n)))),
        Request::Back(k) => (held, Some(done(session.back(k)))),
        Request::BackFromClash(k) => match held {
            None => (None, None),
            Some(receipt) => after_spend(session.back_from_clash(receipt, k)),
        },
        Request::Close => match held {
            None => (None, None),
            Some(receipt) => after_spend(session.close(receipt)),
        },
    }
}

fn done(outcome: Result<(), Refusal>) -> Answer
    ensures { result ≡ done outcome }
{
    outcome?;
    Ok(Reply::Done)
}

// A settle that found a clash gives a receipt.
fn after_settle(outcome: Result<Outcome, Refusal>) -> (Option<Receipt>, Option<Answer>)
    ensures held { MatchResult outcome (λ o. result.0 ≡ given o) (λ _. result.0 ≡ None) }
    ensures answer { result.1 ≡ Some (settled outcome) }
{
    match outcome {
        Ok(Outcome::Quiet(grown)) => (None, Some(Ok(Reply::Grown(grown)))),
        Ok(Outcome::Clash(receipt)) => {
            let clash = Clash {
                rule: receipt.rule(),
                level: receipt.level(),
            };
            let reply = Reply::Clash(clash, receipt.letter());
            (Some(receipt), Some(Ok(reply)))
        }
        Err(refusal) => (None, Some(Err(refusal))),
    }
}

// A call that takes the receipt gives it back where it is refused.
fn after_spend(outcome: Result<(), Returned>) -> (Option<Receipt>, Option<Answer>)
    ensures held { MatchResult outcome (λ _. result.0 ≡ None) (λ e. result.0 ≡ Some e.receipt) }
    ensures answer { result.1 ≡ Some (spent outcome) }
{
    match outcome {
        Ok(()) => (None, Some(Ok(Reply::Done))),
        Err(Returned { refusal, receipt }) => (Some(receipt), Some(Err(refusal))),
    }
}
