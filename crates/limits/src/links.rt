// A link that is written and read back.
use link::{Converter, Refusal};
use meaning::Channels;
use stage::{Curves, Table};
use std::test::Fail;

// The curve answers 784 at 25,700; its link of four grid points, which is far beside it there, answers 4,522.
#[test]
fn what_is_read_back_answers_as_the_link(rt: HostRuntime) -> Result<(), Fail> {
    let bent = Curves::new(Channels::One, 3, Table(&[0u16, 1000, 65_535])).ok_or("length")?;
    let mut converter = Converter::new(bent);
    let mut table = [7; 4];
    assert_eq!(rt; converter.begin(&table, 4), Ok(()));
    assert!(rt; converter.fill(&mut table, 4).is_ok());
    let mut output = [170; 68];
    assert_eq!(rt;
        converter.read_back(
            &table,
            output.get_mut(..67).ok_or("67")?,
            &[25_700, 0, 0, 0]
        ),
        Err(Refusal::OutputLength)
    );
    assert_eq!(rt; output, [170; 68]);
    for (count, want) in [(0, 0), (21_845, 667), (25_700, 4522), (51_400, 37_697)] {
        assert_eq!(rt;
            converter.read_back(&table, &mut output, &[count, 1, 2, 3]),
            Ok([want, 0, 0, 0]),
            "at {count}"
        );
    }
    Ok(())
}
