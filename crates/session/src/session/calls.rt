ghost use Rattle.std.specs.Prelude.{◌≡◌, Some, None, IfErr, MatchResult, OnErr};
ghost use Rattle.literals.specs.Refusals.{first_failed};
ghost use Rattle.runs.specs.Calls.{checks, Does};
ghost use Rattle.runs.specs.Laws.{Laws};
ghost use Rattle.runs.specs.Views.{opened};
ghost use Rattle.session.specs.Logs.{Reached, Sound, TrailTold};
ghost use Rattle.session.specs.Outcomes.{done, settled, spent};
ghost use Rattle.session.specs.Sessions.{seen};
ghost use Rattle.shelf.specs.Meanings.{Every, Lawful};

use crate::receipt::{Outcome, Receipt, Returned};
use crate::session::Session;
use crate::tied::Tied;
use literals::{Literal, Refusal};
use runs::{Call, Clash, laws_over_runs};
use shelf::Shelf;

impl<S: Shelf> Session<S> {
    // Takes back all that the shelf was told. Whatever is then called, the laws hold.
    pub fn open(shelf: S) -> Session<S>
        ensures sound { Sound (S.Shelf.rules result.tied.shelf) (S.Shelf.told result.tied.shelf) result.tied.log }
        ensures rules { S.Shelf.rules result.tied.shelf ≡ S.Shelf.rules shelf }
        ensures view { seen result ≡ opened }
        ensures laws { Laws (S.Shelf.rules shelf) }
    {
        Session {
            tied: Tied::new(shelf),
        }
    }

    // Does nothing: what it ensures holds of the session's rules, after every list of calls over them, and of this session.
    pub fn laws(&self)
        ensures lawful { Every (S.Shelf.rules self.now.tied.shelf) Lawful }
        ensures laws { Laws (S.Shelf.rules self.now.tied.shelf) }
        ensures told { TrailTold (S.Shelf.told self.now.tied.shelf) self.now.tied.log }
        ensures reached { Reached (S.Shelf.rules self.now.tied.shelf) (seen self.now) }
    {
        laws_over_runs(&self.tied.shelf);
    }

    // Gives the shelf back, as it stands.
    pub fn into_shelf(self) -> S
        ensures shelf { result ≡ self.tied.shelf }
        ensures told { TrailTold (S.Shelf.told result) self.tied.log }
    {
        self.tied.shelf
    }

    // Puts on the trail what is forced, until all is quiet, or a rule is broken. Refused by 28 or 22.
    pub fn settle(&mut self) -> Result<Outcome, Refusal>
        ensures sound { Sound (S.Shelf.rules self.new.tied.shelf) (S.Shelf.told self.new.tied.shelf) self.new.tied.log }
        ensures rules { S.Shelf.rules self.new.tied.shelf ≡ S.Shelf.rules self.old.tied.shelf }
        ensures does { Does (S.Shelf.rules self.old.tied.shelf) (seen self.old) Call.Settle (settled result) (seen self.new) }
        ensures same { OnErr result (self.new ≡ self.old) }
    {
        self.tied.log.admit(Call::Settle)?;
        let before = self.tied.log.trail.count();
        match self.tied.settle() {
            None => {
                let grown = self.tied.log.trail.count() - before;
                Ok(Outcome::Quiet(grown as u8))
            }
            Some(rule) => {
                let Ok(letter) = self.tied.shelf.letter_of(rule) else {
                    unreachable()
                };
                let clash = Clash {
                    rule,
                    level: self.tied.log.level,
                };
                Ok(Outcome::Clash(Receipt { clash, letter }))
            }
        }
    }

    // Chooses the literal of this number, a level higher. Refused by 1, 28, 22, 23, 24 or 25.
    pub fn choose(&mut self, n: i32) -> Result<(), Refusal>
        ensures sound { Sound (S.Shelf.rules self.new.tied.shelf) (S.Shelf.told self.new.tied.shelf) self.new.tied.log }
        ensures rules { S.Shelf.rules self.new.tied.shelf ≡ S.Shelf.rules self.old.tied.shelf }
        ensures does { Does (S.Shelf.rules self.old.tied.shelf) (seen self.old) (Call.Choose n) (done result) (seen self.new) }
        ensures same { OnErr result (self.new ≡ self.old) }
    {
        // It does nothing, and says that the session is sound where no literal is read.
        self.laws();
        let literal = Literal::try_from(n)?;
        self.tied.log.admit(Call::Choose(n))?;
        self.tied.choose(literal);
        Ok(())
    }

    // Drops what stands above level k. Refused by 13, 28, 22 or 26.
    pub fn back(&mut self, k: u32) -> Result<(), Refusal>
        ensures sound { Sound (S.Shelf.rules self.new.tied.shelf) (S.Shelf.told self.new.tied.shelf) self.new.tied.log }
        ensures rules { S.Shelf.rules self.new.tied.shelf ≡ S.Shelf.rules self.old.tied.shelf }
        ensures does { Does (S.Shelf.rules self.old.tied.shelf) (seen self.old) (Call.Back k) (done result) (seen self.new) }
        ensures same { OnErr result (self.new ≡ self.old) }
    {
        self.tied.log.admit(Call::Back(k))?;
        self.tied.drop_above(k as u8);
        Ok(())
    }

    // Drops what stands above level k, and takes the receipt. Refused by 13, 28, 27 or 26: the receipt is given back.
    pub fn back_from_clash(&mut self, receipt: Receipt, k: u32) -> Result<(), Returned>
        ensures sound { Sound (S.Shelf.rules self.new.tied.shelf) (S.Shelf.told self.new.tied.shelf) self.new.tied.log }
        ensures rules { S.Shelf.rules self.new.tied.shelf ≡ S.Shelf.rules self.old.tied.shelf }
        ensures does { Does (S.Shelf.rules self.old.tied.shelf) (seen self.old) (Call.BackFromClash receipt.clash k) (spent result) (seen self.new) }
        ensures same { OnErr result (self.new ≡ self.old) }
        ensures receipt { IfErr result (λ e. e.receipt ≡ receipt) }
    {
        self.spend(Call::BackFromClash(receipt.clash, k), receipt)?;
        self.tied.drop_above(k as u8);
        Ok(())
    }

    // Shuts the session, and takes the receipt; the trail stays. Refused by 28 or 27: the receipt is given back.
    pub fn close(&mut self, receipt: Receipt) -> Result<(), Returned>
        ensures sound { Sound (S.Shelf.rules self.new.tied.shelf) (S.Shelf.told self.new.tied.shelf) self.new.tied.log }
        ensures rules { S.Shelf.rules self.new.tied.shelf ≡ S.Shelf.rules self.old.tied.shelf }
        ensures does { Does (S.Shelf.rules self.old.tied.shelf) (seen self.old) (Call.Close receipt.clash) (spent result) (seen self.new) }
        ensures same { OnErr result (self.new ≡ self.old) }
        ensures receipt { IfErr result (λ e. e.receipt ≡ receipt) }
    {
        self.spend(Call::Close(receipt.clash), receipt)?;
        self.tied.shut();
        Ok(())
    }

    // Spends the receipt on a call that takes it, or gives it back with what the call is refused by.
    fn spend(&self, call: Call, receipt: Receipt) -> Result<(), Returned>
        ensures { MatchResult result (λ _. None ≡ first_failed (checks (seen self.now) call)) (λ e. (Some e.refusal ≡ first_failed (checks (seen self.now) call)) × (e.receipt ≡ receipt)) }
    {
        // Not by `map_err`: its closure would take the receipt that is spent below.
        if let Err(refusal) = self.tied.log.admit(call) {
            return Err(Returned { refusal, receipt });
        }
        receipt.spend();
        Ok(())
    }
}
