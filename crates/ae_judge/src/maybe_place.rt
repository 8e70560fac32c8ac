// Places that may be missing.

ghost use Rattle.std.specs.Prelude.{◌≡◌, ◌<◌, ◌-◌, ◌^◌, Some, None};

use std::marker::Model;

/// A place, or none, in four bytes: half of what an `Option<u32>` takes.
#[derive(Clone, Copy)]
pub struct MaybePlace {
    /// The place and 1; 0 where there is none.
    kept: u32,
}

impl Model for MaybePlace {
    ghost use Rattle.std.specs.Prelude.{Option, ℕ};
    ghost use Rattle.ae_judge.specs.MaybePlaces.{kept_again, kept_number, kept_place};

    ghost Value = { Option ℕ };

    ghost view = { λ p. kept_place p.kept };

    ghost inverse = { λ o. record { kept = kept_number o } };

    ghost inverse_ok = { λ a h i. record { kept = kept_again a.kept i } };
}

impl MaybePlace {
    pub fn none() -> MaybePlace
        ensures { result ≡ None }
    {
        MaybePlace { kept: 0 }
    }

    pub fn some(place: u32) -> MaybePlace
        requires few { place < 2 ^ 32 - 1 }
        ensures { result ≡ Some place }
    {
        MaybePlace { kept: place + 1 }
    }

    pub fn place(self) -> Option<u32>
        ensures { result ≡ self }
    {
        if self.kept == 0 {
            None
        } else {
            Some(self.kept - 1)
        }
    }
}
