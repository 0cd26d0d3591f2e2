ghost use Rattle.std.specs.Prelude.{◌≡◌, true};
ghost use Rattle.lists.specs.Lists.{distinct, literals_of};

mod methods;
mod rule;

use lists::Literals;

// 1 to 16 literals over distinct switches.
#[derive(Clone, Copy)]
pub struct Clause {
    literals: Literals,
    ghost once: { distinct (literals_of literals) ≡ true },
}
