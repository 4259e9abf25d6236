// What refusals, faults, layers and pixels print, and values that differ in one part alone.
use link::{Cmyk8, Filled, Gray8, Quote, Refusal, Rgb8, Rgb16, State};
use profile::{ChainError, Fault, Layer, Report};
use stage::Grid;
use std::test::Fail;

const REFUSALS: [Refusal; 8] = [
    Refusal::RowLengths,
    Refusal::PixelChannels,
    Refusal::GridPoints,
    Refusal::TableLength,
    Refusal::NoLink,
    Refusal::FullLink,
    Refusal::FillingLink,
    Refusal::OutputLength,
];

const LAYERS: [Layer; 3] = [Layer::Header, Layer::Directory, Layer::Element];

const FAULTS: [Fault; 15] = [
    Fault::Length,
    Fault::Magic,
    Fault::ColourSpace,
    Fault::OtherSpace,
    Fault::Records,
    Fault::Absent,
    Fault::Outside { record: 132 },
    Fault::Short { element: 144 },
    Fault::UnknownType { element: 144 },
    Fault::InChannels { element: 144 },
    Fault::OutChannels { element: 144 },
    Fault::GridPoints { element: 144 },
    Fault::InputLength { element: 144 },
    Fault::OutputLength { element: 144 },
    Fault::Tables { element: 144 },
];

#[test]
fn each_refusal_prints_its_sentence(rt: HostRuntime) -> Result<(), Fail> {
    for refusal in REFUSALS {
        assert_eq!(rt; refusal.to_string(rt.alloc())?.as_str(), refusal.sentence());
    }
    Ok(())
}

#[test]
fn each_fault_prints_its_sentence(rt: HostRuntime) -> Result<(), Fail> {
    for fault in FAULTS {
        assert_eq!(rt; fault.to_string(rt.alloc())?.as_str(), fault.sentence());
    }
    Ok(())
}

#[test]
fn each_layer_prints_its_name(rt: HostRuntime) -> Result<(), Fail> {
    for layer in LAYERS {
        assert_eq!(rt; layer.to_string(rt.alloc())?.as_str(), layer.name());
    }
    Ok(())
}

#[test]
fn each_pixel_is_shown_under_the_name_of_its_kind(rt: HostRuntime) -> Result<(), Fail> {
    let gray = Gray8 { value: 7 };
    let narrow = Rgb8 {
        red: 1,
        green: 2,
        blue: 3,
    };
    let inks = Cmyk8 {
        cyan: 1,
        magenta: 2,
        yellow: 3,
        black: 4,
    };
    let wide = Rgb16 {
        red: 1,
        green: 2,
        blue: 65_535,
    };
    assert_eq!(rt;
        format!(in rt.alloc(); "{gray:?} {narrow:?}")?.as_str(),
        "Gray8 { value: 7 } Rgb8 { red: 1, green: 2, blue: 3 }"
    );
    assert_eq!(rt;
        format!(in rt.alloc(); "{inks:?} {wide:?}")?.as_str(),
        "Cmyk8 { cyan: 1, magenta: 2, yellow: 3, black: 4 } Rgb16 { red: 1, green: 2, blue: 65535 }"
    );
    Ok(())
}

#[test]
fn links_that_stand_elsewhere_differ(rt: HostRuntime) -> Result<(), Fail> {
    let two = Grid::new(2).ok_or("grid")?;
    let three = Grid::new(3).ok_or("grid")?;
    let filling = State::Filling { grid: two, next: 1 };
    assert!(rt; filling != State::Filling { grid: two, next: 2 });
    assert!(rt;
        filling
            != State::Filling {
                grid: three,
                next: 1
            }
    );
    assert!(rt; State::Full { grid: two } != State::Full { grid: three });
    assert!(rt; State::Full { grid: two } != filling);
    assert!(rt; State::Empty != State::Full { grid: two });
    Ok(())
}

#[test]
fn answers_that_differ_in_one_part_differ(rt: HostRuntime) {
    let filled = |stored, missing| Filled { stored, missing };
    assert!(rt; filled(1, 2) != filled(1, 3));
    assert!(rt; filled(1, 2) != filled(2, 2));
    let quote = |stage, link| Quote { stage, link };
    assert!(rt; quote(1, None) != quote(1, Some(1)));
    assert!(rt; quote(1, Some(2)) != quote(2, Some(2)));
    assert!(rt; Refusal::NoLink != Refusal::FullLink);
}

#[test]
fn faults_at_other_places_differ(rt: HostRuntime) {
    assert!(rt; Fault::Short { element: 144 } != Fault::Short { element: 148 });
    assert!(rt; Fault::Short { element: 144 } != Fault::Tables { element: 144 });
    let of_profile = |position| ChainError::Profile {
        position,
        fault: Fault::Magic,
    };
    assert!(rt; of_profile(0) != of_profile(1));
    assert!(rt; ChainError::Spaces { position: 1 } != ChainError::Spaces { position: 2 });
    let report = |number, position| Report { number, position };
    assert!(rt; report(13, 1) != report(13, 2));
    assert!(rt; report(13, 1) != report(12, 1));
}
