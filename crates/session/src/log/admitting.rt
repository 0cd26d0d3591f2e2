ghost use Rattle.std.specs.Prelude.{◌≡◌, not, ◌&&◌, if◌then◌else◌, Some, None, ◌==◌, nat_le};
ghost use Rattle.literals.specs.Refusals.{first_failed, refusal_of};
ghost use Rattle.runs.specs.Calls.{checks, input_checks, is_clashed, is_shut, is_unsettled, wrong_receipt};
ghost use Rattle.runs.specs.Views.{standing};
ghost use Rattle.session.specs.Logs.{view_of};
ghost use Rattle.told.specs.Tellings.{free_checks};
ghost use Rattle.told.specs.Trails.{items_of};

use crate::log::Log;
use literals::{Literal, Refusal};
use runs::{Call, Clash, State};

const MOST_LEVEL: u32 = 64;

// What was handed in: a choice names a literal, and a level is at most 64.
fn check_input(call: Call) -> Result<(), Refusal>
    ensures { refusal_of result ≡ first_failed (input_checks call) }
{
    match call {
        Call::Choose(n) => Literal::try_from(n).map(|_| ()),
        Call::Back(k) | Call::BackFromClash(_, k) => check_level(k),
        Call::Settle | Call::Close(_) => Ok(()),
    }
}

fn check_level(k: u32) -> Result<(), Refusal>
    ensures { refusal_of result ≡ first_failed (input_checks (Call.Back k)) }
{
    if k > MOST_LEVEL {
        return Err(Refusal::NoSuchPlace);
    }
    Ok(())
}

impl Log {
    // What the call and the state together decide.
    pub(crate) fn admit(&self, call: Call) -> Result<(), Refusal>
        ensures { refusal_of result ≡ first_failed (checks (view_of self.now) call) }
    {
        check_input(call)?;
        self.check_open()?;
        match call {
            Call::Settle => self.check_no_clash(),
            Call::Choose(n) => {
                self.check_no_clash()?;
                self.check_settled()?;
                self.check_free(n)
            }
            Call::Back(k) => {
                self.check_no_clash()?;
                self.check_below(k)
            }
            Call::BackFromClash(of, k) => {
                self.check_receipt(of)?;
                self.check_below(k)
            }
            Call::Close(of) => self.check_receipt(of),
        }
    }

    // Refused by 28 where the session is shut.
    fn check_open(&self) -> Result<(), Refusal>
        ensures { refusal_of result ≡ (if is_shut self.now.state then Some Refusal.Shut else None) }
    {
        match self.state {
            State::Shut => Err(Refusal::Shut),
            _ => Ok(()),
        }
    }

    // Refused by 22 where a clash stands.
    fn check_no_clash(&self) -> Result<(), Refusal>
        ensures { refusal_of result ≡ (if is_clashed self.now.state then Some Refusal.ClashStands else None) }
    {
        match self.state {
            State::Clashed(_) => Err(Refusal::ClashStands),
            _ => Ok(()),
        }
    }

    // Refused by 23 where a choice was not settled yet.
    fn check_settled(&self) -> Result<(), Refusal>
        ensures { refusal_of result ≡ (if is_unsettled self.now.state then Some Refusal.Unsettled else None) }
    {
        match self.state {
            State::Unsettled => Err(Refusal::Unsettled),
            _ => Ok(()),
        }
    }

    // Refused by 27 unless the receipt is of the rule that is broken and of the present level.
    fn check_receipt(&self, of: Clash) -> Result<(), Refusal>
        ensures { refusal_of result ≡ (if wrong_receipt (view_of self.now) of then Some Refusal.WrongReceipt else None) }
    {
        match self.state {
            State::Clashed(rule) if rule == of.rule && self.level == of.level => Ok(()),
            _ => Err(Refusal::WrongReceipt),
        }
    }

    // Refused by 26 unless the level is below the present one.
    fn check_below(&self, k: u32) -> Result<(), Refusal>
        ensures { refusal_of result ≡ (if nat_le self.now.level k then Some Refusal.LevelNotBelow else None) }
    {
        if u32::from(self.level) <= k {
            return Err(Refusal::LevelNotBelow);
        }
        Ok(())
    }

    // Refused by 24 where the literal stands, by 25 where its opposite does.
    fn check_free(&self, n: i32) -> Result<(), Refusal>
        ensures { refusal_of result ≡ first_failed (free_checks (standing (items_of self.now.trail)) n) }
    {
        let literal = Literal::try_from(n)?;
        self.trail.set().check_free(literal)
    }
}
