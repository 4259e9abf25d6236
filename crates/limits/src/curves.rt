// How many entries the tables of curves have, and what a source that has fewer gives.
use meaning::Channels;
use stage::{Curves, Stage, Table, WideBytes};
use std::test::Fail;

#[test]
fn tables_have_2_to_4096_entries(rt: HostRuntime) {
    assert!(rt; Curves::new(Channels::One, 1, Table(&[0u16, 0])).is_none());
    assert!(rt; Curves::new(Channels::One, 2, Table(&[0u16, 0])).is_some());
    assert!(rt; Curves::new(Channels::Four, 4096, Table(&[0u16, 0])).is_some());
    assert!(rt; Curves::new(Channels::Four, 4097, Table(&[0u16, 0])).is_none());
}

#[test]
fn beyond_the_source_entries_are_0(rt: HostRuntime) -> Result<(), Fail> {
    let curves = Curves::new(Channels::Four, 2, WideBytes(&[255, 255, 255])).ok_or("refused")?;
    assert_eq!(rt;
        curves.answer(&[0, 65_535, 65_535, 65_535]),
        [65_535, 0, 0, 0]
    );
    assert_eq!(rt; curves.steepness(), 65_536);
    Ok(())
}
