// What the calls of a converter answer.
use meaning::Faithful;

// What a fill did, in nodes.
#[derive(Clone, Copy, PartialEq, Eq, Debug)]
pub struct Filled {
    pub stored: usize,
    // Still missing after it.
    pub missing: usize,
}

// The error bounds of a converter, in grains.
#[derive(Clone, Copy, PartialEq, Eq, Debug)]
pub struct Quote {
    // Of the stage's answers.
    pub stage: u32,
    // Of the link's, if there is a link.
    pub link: Option<u32>,
}

impl Faithful for Filled {
    ghost use Rattle.std.proofs.Common.{rules};

    ghost equal = { Prim.search rules };

    ghost copied = { Prim.search rules };
}

impl Faithful for Quote {
    ghost use Rattle.std.proofs.Common.{rules};

    ghost equal = { Prim.search rules };

    ghost copied = { Prim.search rules };
}
