use super::*;
use std::alloc::{AllocError, Global};
use std::test::Fail;

/// The units as text: heads, `?`, and numbers as their digits and exponent.
fn shown(alloc: Global, units: &[Unit]) -> Result<String, AllocError> {
    let mut text = String::new(alloc);
    for unit in units {
        if !text.is_empty() {
            text.push(';')?;
        }
        for byte in unit.head.as_bytes() {
            text.push(char::from(*byte))?;
        }
        if unit.query {
            text.push('?')?;
        }
        for number in unit.args.as_slice() {
            text.push(' ')?;
            text.push_str(number_shown(alloc, number)?.as_str())?;
        }
    }
    Ok(text)
}

fn number_shown(alloc: Global, number: &Nrf) -> Result<String, AllocError> {
    let sign = if number.negative { "-" } else { "" };
    format!(in alloc; "{sign}{}e{}", number.digits, number.exponent)
}

const MESSAGES: [(&[u8], &str); 23] = [
    (b"", ""),
    (b"\n", ""),
    (b" \x00\t\x1f\x0b\r", ""),
    (b"A", "A"),
    (b"a\n", "A"),
    (b"*idn?", "*IDN?"),
    (b"*IDN? ;  *ese\x0116 ; a_1", "*IDN?;*ESE 16e0;A_1"),
    (b"ABCDEFGHIJKL", "ABCDEFGHIJKL"),
    (b"*ABCDEFGHIJKL", "*ABCDEFGHIJKL"),
    (b"A? 1", "A? 1e0"),
    (b"conf 1", "CONF 1e0"),
    (b"A +1.", "A 1e0"),
    (b"A -.5e 3", "A -5e2"),
    (b"A 1 e +3 , 2\x0b,\r3 ;b", "A 1e3 2e0 3e0;B"),
    (b"A 1E+00005", "A 1e5"),
    (b"A 1E-99999", "A 1e-99999"),
    (
        b"A 12345678901234567890123456789012",
        "A 12345678901234567890123456789012e0",
    ),
    (
        b"A 1234567890123456.7890123456789012",
        "A 12345678901234567890123456789012e-16",
    ),
    (
        b"A .12345678901234567890123456789012",
        "A 12345678901234567890123456789012e-32",
    ),
    (b"A 00000000000000000000000000000000", "A 0e0"),
    (b"A 0.0E00", "A 0e-1"),
    (b"A 1e5;B\n", "A 1e5;B"),
    (b"aZ09_?", "AZ09_?"),
];

#[test]
fn messages_have_their_units(rt: HostRuntime) -> Result<(), Fail> {
    for (message, want) in MESSAGES {
        assert!(rt; message.len() < 4096);
        let found = units(rt.alloc(), message)?;
        let text = shown(rt.alloc(), found.as_slice())?;
        assert_eq!(rt; text.as_str(), want);
    }
    Ok(())
}

const FAULTS: [(&[u8], u32); 49] = [
    (b" a \t b", 5),
    (b"A;", 2),
    (b"A;\n", 2),
    (b";A", 0),
    (b"A ; ;B", 4),
    (b"A\nB", 2),
    (b"\n\n", 1),
    (b"A\n\n", 2),
    (b"A 1\n ", 4),
    (b"ABCDEFGHIJKLM", 12),
    (b"*ABCDEFGHIJKLM", 13),
    (b"*", 1),
    (b"* A", 1),
    (b"*1", 1),
    (b"**A", 1),
    (b"A*", 1),
    (b"_A", 0),
    (b"1A", 0),
    (b"a?b", 2),
    (b"a??", 2),
    (b"A ?", 2),
    (b"A?1", 2),
    (b"A 1E000001", 9),
    (b"A 1E", 4),
    (b"A 1E+", 5),
    (b"A 1E 1 E", 7),
    (b"A .", 3),
    (b"A 1..", 4),
    (b"A 1.5.", 5),
    (b"A +-1", 3),
    (b"A + 1", 3),
    (b"A 1 2", 4),
    (b"A 1,", 4),
    (b"A 1, ", 5),
    (b"A 1,;B", 4),
    (b"A ,1", 2),
    (b"A 1,,2", 4),
    (b"A, 1", 1),
    (b"A 123456789012345678901234567890123", 34),
    (b"A .123456789012345678901234567890123", 35),
    (b"A 000000000000000000000000000000000", 34),
    (b"A\x80", 1),
    (b"\xff", 0),
    (b"A 1\xb5", 3),
    (b"A\x7f", 1),
    (b"A!1", 1),
    (b"z 9x", 3),
    (b"A 1;*", 5),
    (b"A 1 ; * B", 7),
];

#[test]
fn faults_have_their_places(rt: HostRuntime) {
    for (message, place) in FAULTS {
        assert!(rt; message.len() < 4096);
        match units(rt.alloc(), message) {
            Ok(_) => assert!(rt; false, "{message:?} has units"),
            Err(fault) => assert_eq!(rt; fault, SyntaxFault::At(place), "{message:?}"),
        }
    }
}

const NUMBERS: [(bool, u128, i32, i64); 22] = [
    (false, 5, -1, 1),
    (true, 5, -1, -1),
    (false, 15, -1, 2),
    (false, 25, -1, 3),
    (true, 25, -1, -3),
    (false, 49, -2, 0),
    (false, 9999995, -1, 1000000),
    (false, 9999994, -1, 999999),
    (true, 9999995, -1, -1000000),
    (false, 1, 99999, 1000000),
    (true, 1, 99999, -1000000),
    (false, 1, -99999, 0),
    (false, 0, 99999, 0),
    (false, 99999999999999999999999999999999, -32, 1),
    (false, 99999999999999999999999999999999, -26, 1000000),
    (true, 12345678901234567890123456789012, -27, -12346),
    (false, 50000000000000000000000000000000, -32, 1),
    (false, 49999999999999999999999999999999, -32, 0),
    (false, 1, 6, 1000000),
    (false, 12, 4, 120000),
    (false, 7, 0, 7),
    (false, 5, -40, 0),
];

#[test]
fn numbers_are_rounded(rt: HostRuntime) {
    for (negative, digits, exponent, want) in NUMBERS {
        let number = Nrf {
            negative,
            digits,
            exponent,
        };
        assert_eq!(rt; number.rounded(), want, "{digits}e{exponent}");
    }
}

#[test]
fn args_give_their_vec_back(rt: HostRuntime) -> Result<(), Fail> {
    for unit in units(rt.alloc(), b"CONF 9,8")? {
        let again = Args::from(unit.args.into_vec());
        assert_eq!(rt; again.as_slice().len(), 2);
    }
    Ok(())
}

#[test]
fn faults_say_what_to_do(rt: HostRuntime) -> Result<(), Fail> {
    let at = format!(in rt.alloc(); "{}", SyntaxFault::At(2))?;
    assert_eq!(rt;
        at.as_str(),
        "not a program message from byte 2 on; correct it there"
    );
    let memory = format!(in rt.alloc(); "{}", SyntaxFault::Memory)?;
    assert_eq!(rt; memory.as_str(), "out of memory; free some and try again");
    Ok(())
}
