use literals::Literal;
use told::Says;

// A place of the trail: a literal that stands, the level at which it came, and the rule that locked it, none where it was chosen.
#[derive(Clone, Copy, Debug, PartialEq, Eq, Hash)]
pub struct Step {
    pub literal: Literal,
    pub level: u8,
    pub rule: Option<usize>,
}

impl Says for Step {
    ghost literal = { λ x. x.literal };

    fn literal(&self) -> Literal {
        self.literal
    }
}
