ghost use Rattle.std.specs.Prelude.{◌≤◌, length};
ghost use Rattle.bounded.specs.Held.{held};

mod methods;

use bounded::Bounded;
use literals::Literal;

// A rule has at most so many terms.
pub const MOST_TERMS: usize = 16;

// 1 to 16 literals.
#[derive(Clone, Copy)]
pub struct Literals {
    items: Bounded<Literal, MOST_TERMS>,
    ghost some: { 1 ≤ length (held items) },
}
