// Chains of no stage and of three.
use crate::lattices::EIGHT;
use meaning::Channels;
use stage::{Chain, Curves, Joined, Lattice, NodeTable, Stage, Table};
use std::test::Fail;

// Each of three channels turned around: 65,535 at 0, and 0 at 65,535.
const NEGATIVE: [u16; 24] = [
    65_535, 65_535, 65_535, 65_535, 65_535, 0, 65_535, 0, 65_535, 65_535, 0, 0, 0, 65_535, 65_535,
    0, 65_535, 0, 0, 0, 65_535, 0, 0, 0,
];

#[test]
fn a_chain_has_a_stage(rt: HostRuntime) {
    let none: [Curves<NodeTable<'static>>; 0] = [];
    assert!(rt; Chain::new(&none).is_none());
}

// The same values as of two joined stages that are joined to a third.
#[test]
fn a_chain_of_three_stages(rt: HostRuntime) -> Result<(), Fail> {
    let negative = Lattice::new(Channels::Three, Channels::Three, 2, Table(&NEGATIVE)).ok_or(
        "grid",
    )?;
    let cube = Lattice::new(Channels::Three, Channels::One, 2, Table(&EIGHT)).ok_or("grid")?;
    let bent = Lattice::new(
        Channels::One,
        Channels::One,
        3,
        Table(&[0u16, 1_000, 65_535]),
    )
    .ok_or("grid")?;
    let stages = [negative, cube, bent];
    let chain = Chain::new(&stages).ok_or("no stage")?;
    let joined = Joined {
        first: Joined {
            first: negative,
            second: cube,
        },
        second: bent,
    };
    assert_eq!(rt; chain.ins(), Channels::Three);
    assert_eq!(rt; chain.outs(), Channels::One);
    assert_eq!(rt; chain.answer(&[0, 0, 0, 0]), [54_634, 0, 0, 0]);
    assert_eq!(rt; joined.answer(&[0, 0, 0, 0]), [54_634, 0, 0, 0]);
    assert_eq!(rt; chain.answer(&[13_107, 26_214, 52_428, 0]), [464, 0, 0, 0]);
    assert_eq!(rt; joined.answer(&[13_107, 26_214, 52_428, 0]), [464, 0, 0, 0]);
    assert_eq!(rt; chain.steepness(), 326_940);
    assert_eq!(rt; joined.steepness(), 326_940);
    assert_eq!(rt; chain.error(), 260_775);
    assert_eq!(rt; joined.error(), 260_775);
    Ok(())
}
