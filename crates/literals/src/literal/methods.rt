ghost use Rattle.std.specs.Prelude.{◌≡◌, IfOk, if◌then◌else◌, Some, None, Decides};
ghost use Rattle.literals.specs.Literals.{no_switch, opposite, same};
ghost use Rattle.literals.specs.Refusals.{refusal_of};

use crate::literal::Literal;
use crate::refusal::Refusal;

impl Literal {
    // Switch 1 on: what stands in a place that holds nothing yet.
    pub const FIRST: Literal = Literal {
        switch: 1,
        on: true,
    };

    // The literal that says that the switch is on, or off.
    pub fn of(switch: u8, on: bool) -> Result<Literal, Refusal>
        ensures refused { refusal_of result ≡ (if no_switch switch then Some Refusal.OutOfRange else None) }
        ensures switch { IfOk result (λ l. l.switch ≡ switch) }
        ensures on { IfOk result (λ l. l.on ≡ on) }
    {
        match switch {
            1..=64 => Ok(Literal { switch, on }),
            _ => Err(Refusal::OutOfRange),
        }
    }

    pub fn switch(self) -> u8
        ensures { result ≡ self.switch }
    {
        self.switch
    }

    pub fn is_on(self) -> bool
        ensures { result ≡ self.on }
    {
        self.on
    }

    // Both literals say the same of the same switch.
    #[tactic(auto, using(crate::proofs::Known::equal_same, crate::proofs::Known::same_decides))]
    pub fn is_same(self, other: Literal) -> bool
        ensures test { result ≡ same self other }
        ensures is { Decides result (self ≡ other) }
    {
        self == other
    }

    // The literal that says the contrary of the same switch.
    pub fn opposite(self) -> Literal
        ensures { result ≡ opposite self }
    {
        // A literal of a struct with a ghost field takes no `..self`.
        Literal {
            switch: self.switch,
            on: !self.on,
        }
    }
}
