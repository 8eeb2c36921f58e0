// Texts and cells, there and back.
use crate::parse::*;
use crate::print::*;
use std::test::Fail;

#[test]
fn digits(rt: HostRuntime) {
    assert_eq!(rt; digit(b'0'), Some(0));
    assert_eq!(rt; digit(b'9'), Some(9));
    assert_eq!(rt; digit(b'a'), Some(10));
    assert_eq!(rt; digit(b'f'), Some(15));
    for byte in [b'/', b':', b'`', b'g', b'A'] {
        assert_eq!(rt; digit(byte), None);
    }
}

#[test]
fn bad_places(rt: HostRuntime) {
    assert_eq!(rt;
        parse_cells(rt.alloc(), 16, "01f-").err(),
        Some(NoCells::NoDigit { place: 3 })
    );
    assert_eq!(rt;
        parse_cells(rt.alloc(), 3, "0132").err(),
        Some(NoCells::NoKind { place: 2, kind: 3 })
    );
}

#[test]
fn there_and_back(rt: HostRuntime) -> Result<(), Fail> {
    let mut line = String::new(rt.alloc());
    write_cells(&mut line, Alphabet::Digits, &[0, 9, 10, 15])?;
    assert_eq!(rt; line.as_str(), "09af");
    let cells = parse_cells(rt.alloc(), 16, line.as_str())?;
    assert_eq!(rt; cells.as_slice(), [0, 9, 10, 15].as_slice());
    Ok(())
}

#[test]
fn past_the_symbols(rt: HostRuntime) {
    let mut line = String::new(rt.alloc());
    assert_eq!(rt;
        write_cells(&mut line, Alphabet::Digits, &[0, 16]),
        Err(NoText::NoDigit { place: 1 })
    );
    assert_eq!(rt; line.as_str(), "");
}

#[test]
fn picture(rt: HostRuntime) -> Result<(), Fail> {
    let mut line = String::new(rt.alloc());
    write_cells(&mut line, Alphabet::Glyphs, &[0, 1])?;
    assert_eq!(rt; line.as_str(), " █");
    Ok(())
}
