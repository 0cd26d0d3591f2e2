ghost use Rattle.std.specs.Prelude.{◌≡◌, true, map};
ghost use Rattle.bounded.specs.Held.{held};
ghost use Rattle.lists.specs.Lists.{distinct};
ghost use Rattle.literals.specs.Settings.{set_of};

mod methods;

use crate::says::Says;
use bounded::Bounded;
use literals::Setting;

// What says literals, in order, no switch twice, and the set of these literals.
#[derive(Drop)]
pub struct Trail<T: Says> {
    items: Bounded<T, 64>,
    set: Setting,
    ghost agrees: { set ≡ set_of (map T.literal (held items)) },
    ghost once: { distinct (map T.literal (held items)) ≡ true },
}
