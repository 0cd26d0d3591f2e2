ghost use Rattle.std.specs.Prelude.{◌≡◌, ℕ};

use crate::letter::Letter;

// What has a letter that contracts know.
pub trait Lettered {
    ghost code: { ℕ };

    fn letter(self) -> char
        ensures { result ≡ code };
}

impl<const CODE: u32> Lettered for Letter<CODE> {
    ghost code = { CODE };

    fn letter(self) -> char {
        let Letter { letter } = self;
        letter
    }
}
