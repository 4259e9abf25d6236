// The values of this crate that `==` compares, and `clone` copies, with all their parts.
ghost use Rattle.std.proofs.Common.{rules};

use crate::chain::{ChainError, Report};
use crate::element::Kind;
use crate::fault::{Fault, Layer};
use crate::header::Header;
use crate::space::Space;
use crate::tag::Tag;
use meaning::Faithful;

impl Faithful for Space {
    ghost equal = { Prim.search rules };

    ghost copied = { Prim.search rules };
}

impl Faithful for Report {
    ghost equal = { Prim.search rules };

    ghost copied = { Prim.search rules };
}

impl Faithful for Header {
    ghost equal = { Prim.search rules };

    ghost copied = { Prim.search rules };
}

impl Faithful for Layer {
    ghost equal = { Prim.search rules };

    ghost copied = { Prim.search rules };
}

impl Faithful for Fault {
    ghost equal = { Prim.search rules };

    ghost copied = { Prim.search rules };
}

impl Faithful for ChainError {
    ghost equal = { Prim.search rules };

    ghost copied = { Prim.search rules };
}

impl Faithful for Tag {
    ghost equal = { Prim.search rules };

    ghost copied = { Prim.search rules };
}

impl Faithful for Kind {
    ghost equal = { Prim.search rules };

    ghost copied = { Prim.search rules };
}
