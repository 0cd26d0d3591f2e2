ghost use Rattle.std.specs.Prelude.{◌≡◌, ◌<◌, ◌↔◌, [], ◌∷◌, ◌++◌, length, take, IsOk, OnOk, OnErr};
ghost use Rattle.bounded.specs.Held.{held};

use crate::bounded::Bounded;
use crate::full::Full;

impl<T: Copy, const N: usize> Bounded<T, N> {
    // Holds nothing; `fill` stands in the places not in use.
    pub fn new(fill: T) -> Bounded<T, N>
        ensures { held result ≡ [] }
    {
        Bounded {
            items: [fill; N],
            len: 0,
        }
    }

    // Puts x behind the last; nothing is done where there is no room.
    pub fn push(&mut self, x: T) -> Result<(), Full>
        ensures room { IsOk result ↔ (length (held self.old) < N) }
        ensures pushed { OnOk result (held self.new ≡ held self.old ++ x ∷ []) }
        ensures full { OnErr result (self.new ≡ self.old) }
    {
        if self.len == N {
            return Err(Full);
        }
        self.items[self.len] = x;
        self.len += 1;
        Ok(())
    }

    // Keeps the first n.
    pub fn truncate(&mut self, n: usize)
        ensures { held self.new ≡ take n (held self.old) }
    {
        self.len = self.len.min(n);
    }
}
