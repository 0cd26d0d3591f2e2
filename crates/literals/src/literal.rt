ghost use Rattle.std.specs.Prelude.{◌≤◌};

mod conversions;
mod methods;

// A switch, numbered from 1 to 64, that is said to be on or off.
#[derive(Clone, Copy, Debug, PartialEq, Eq, Hash)]
pub struct Literal {
    pub(crate) switch: u8,
    pub(crate) on: bool,
    ghost range: { (1 ≤ switch) × (switch ≤ 64) },
}
