ghost use Rattle.std.specs.Prelude.{◌≡◌};
ghost use Rattle.literals.specs.declared.literal.Literal.{Literal as Lit};

use literals::Literal;

// What says a literal: the literal itself, or a step of a session's trail.
pub trait Says: Copy {
    ghost literal: { Self → Lit };

    fn literal(&self) -> Literal
        ensures { result ≡ literal self.now };
}

impl Says for Literal {
    ghost literal = { λ l. l };

    fn literal(&self) -> Literal {
        *self
    }
}
