// Tables from numbers, and texts that are no number.
use crate::*;
use std::test::Fail;

#[test]
fn elementary(rt: HostRuntime) -> Result<(), Fail> {
    let table = number_digits(rt.alloc(), 2, 8, "110")?;
    assert_eq!(rt; table.as_slice(), [0, 1, 1, 1, 0, 1, 1, 0].as_slice());
    let nothing = number_digits(rt.alloc(), 2, 0, "00")?;
    assert_eq!(rt; nothing.len(), 0);
    Ok(())
}

#[test]
fn too_large(rt: HostRuntime) -> Result<(), Fail> {
    let last = number_digits(rt.alloc(), 2, 8, "0255")?;
    assert_eq!(rt; last.as_slice(), [1, 1, 1, 1, 1, 1, 1, 1].as_slice());
    for number in ["256", "2550", "98765432109876543210"] {
        let found = number_digits(rt.alloc(), 2, 8, number).err();
        assert_eq!(rt; found, Some(NoDigits::Large));
    }
    Ok(())
}

#[test]
fn no_numeral(rt: HostRuntime) {
    for number in ["", "+5", "1x", "-1", " 1", "0x1f"] {
        let found = number_digits(rt.alloc(), 2, 8, number).err();
        assert_eq!(rt; found, Some(NoDigits::NoNumeral));
    }
}

// The digits in base 16 are those of Python's hex().
#[test]
fn many_bits(rt: HostRuntime) -> Result<(), Fail> {
    let number = "98765432109876543210987654321";
    let groups = number_digits(rt.alloc(), 1000000000, 4, number)?;
    assert_eq!(rt;
        groups.as_slice(),
        [987654321, 876543210, 765432109, 98].as_slice()
    );
    let table = number_digits(rt.alloc(), 16, 25, number)?;
    let digits = [
        1, 11, 12, 0, 7, 12, 1, 14, 8, 3, 13, 9, 8, 15, 15, 15, 2, 12, 9, 13, 0, 2, 15, 3, 1,
    ];
    assert_eq!(rt; table.as_slice(), digits.as_slice());
    Ok(())
}
