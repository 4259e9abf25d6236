// How many grid points and entries lattices have, and what a source that has fewer gives.
use meaning::Channels;
use stage::{Lattice, Stage, Table, lattice_entries};
use std::test::Fail;

// One output at each corner of three channels.
pub(crate) const EIGHT: [u16; 8] = [0, 1_000, 2_000, 3_000, 4_000, 5_000, 6_000, 60_000];

#[test]
fn a_lattice_has_2_grid_points_or_more(rt: HostRuntime) {
    assert!(rt; Lattice::new(Channels::One, Channels::One, 0, Table(&EIGHT)).is_none());
    assert!(rt; Lattice::new(Channels::One, Channels::One, 1, Table(&EIGHT)).is_none());
    assert!(rt; Lattice::new(Channels::One, Channels::One, 2, Table(&EIGHT)).is_some());
    assert!(rt; Lattice::new(Channels::Four, Channels::Four, 255, Table(&EIGHT)).is_some());
}

#[test]
fn the_entries_of_the_smallest_and_the_largest_lattices(rt: HostRuntime) {
    assert_eq!(rt; lattice_entries(Channels::One, Channels::One, 2), 2);
    assert_eq!(rt; lattice_entries(Channels::Four, Channels::Three, 2), 48);
    assert_eq!(rt;
        lattice_entries(Channels::Four, Channels::Four, 33),
        4_743_684
    );
    assert_eq!(rt;
        lattice_entries(Channels::Three, Channels::One, 255),
        16_581_375
    );
    assert_eq!(rt;
        lattice_entries(Channels::Four, Channels::Four, 255),
        16_913_002_500
    );
}

// Behind the one node of this table all nodes are 0. The first channel steps over 255 · 255 or 255 · 255 · 255 of them.
#[test]
fn a_grid_of_255_and_one_node(rt: HostRuntime) -> Result<(), Fail> {
    let table = Table(&[65_535u16]);
    let three = Lattice::new(Channels::Three, Channels::One, 255, table).ok_or("grid")?;
    assert_eq!(rt; three.answer(&[0, 0, 0, 9]), [65_535, 0, 0, 0]);
    assert_eq!(rt; three.answer(&[258, 0, 0, 9]), [3, 0, 0, 0]);
    assert_eq!(rt; three.answer(&[0, 0, 258, 9]), [3, 0, 0, 0]);
    assert_eq!(rt; three.answer(&[65_535, 65_535, 65_535, 9]), [0, 0, 0, 0]);
    let four = Lattice::new(Channels::Four, Channels::One, 255, table).ok_or("grid")?;
    assert_eq!(rt; four.answer(&[0, 0, 0, 0]), [65_535, 0, 0, 0]);
    assert_eq!(rt; four.answer(&[258, 0, 0, 0]), [3, 0, 0, 0]);
    assert_eq!(rt; four.answer(&[0, 0, 0, 258]), [3, 0, 0, 0]);
    assert_eq!(rt;
        four.answer(&[65_535, 65_535, 65_535, 65_535]),
        [0, 0, 0, 0]
    );
    Ok(())
}
