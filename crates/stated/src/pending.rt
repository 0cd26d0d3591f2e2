ghost use Rattle.std.specs.Prelude.{◌≡◌, length};
ghost use Rattle.bounded.specs.Held.{held};

mod methods;

use bounded::Bounded;
use entries::RuleKind;

// A rule has 16 terms at most, so that a seventeenth says as much as all that follow it.
const KEPT: usize = 17;

// A rule whose lines are being read, with its first 17 terms. Weights and switches stand in two lists, since a rule is made from
// two slices. A weight or a switch that no rule may have stands here as 0, which no rule may have either: the rule is then
// refused by the same number as for what is written.
#[derive(Clone, Copy)]
pub struct Pending {
    kind: RuleKind,
    bound: u32,
    weights: Bounded<u16, KEPT>,
    numbers: Bounded<i16, KEPT>,
    ghost even: { length (held weights) ≡ length (held numbers) },
}
