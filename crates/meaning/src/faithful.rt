// Values that `==` compares, and `clone` copies, with all their parts.
ghost use Rattle.std.specs.Prelude.{◌≡◌, true};
ghost use Rattle.std.proofs.Common.{rules};

use crate::Channels;

// Values that are equal are the same, and a clone is the same as its original. Both are laws, and cost nothing when a program
// runs.
pub trait Faithful: Eq + Clone {
    ghost equal: { (a b : Self) → Self.eq a b ≡ true → a ≡ b };

    ghost copied: { (a b : Self) → Self.is_clone a b → a ≡ b };
}

impl Faithful for Channels {
    ghost equal = { Prim.search rules };

    ghost copied = { Prim.search rules };
}

impl Faithful for u8 {
    ghost equal = { Prim.search rules };

    ghost copied = { Prim.search rules };
}

impl Faithful for u16 {
    ghost equal = { Prim.search rules };

    ghost copied = { Prim.search rules };
}
