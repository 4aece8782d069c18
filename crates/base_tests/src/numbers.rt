//! Worked values.

use fx8::{Fix8, FixFault, Text8, Tickets};
use std::process::Abort;

/// What a call gives, in units of 10^-8.
type Answer = Result<i64, FixFault>;

/// Sum, difference, product and quotient of two numbers, in units of 10^-8.
struct Row(i64, i64, Answer, Answer, Answer, Answer);

const LEAST: i64 = i64::MIN;

const GREATEST: i64 = i64::MAX;

const ROWS: [Row; 6] = [
    // 0.5 and 0.00000001: the product 0.000000005 is a tie
    Row(
        50_000_000,
        1,
        Ok(50_000_001),
        Ok(49_999_999),
        Ok(1),
        Ok(5_000_000_000_000_000),
    ),
    Row(
        -50_000_000,
        1,
        Ok(-49_999_999),
        Ok(-50_000_001),
        Ok(-1),
        Ok(-5_000_000_000_000_000),
    ),
    // 1 / 3 and -2 / 3
    Row(
        100_000_000,
        300_000_000,
        Ok(400_000_000),
        Ok(-200_000_000),
        Ok(300_000_000),
        Ok(33_333_333),
    ),
    Row(
        -200_000_000,
        300_000_000,
        Ok(100_000_000),
        Ok(-500_000_000),
        Ok(-600_000_000),
        Ok(-66_666_667),
    ),
    Row(
        GREATEST,
        1,
        Err(FixFault::Overflow),
        Ok(GREATEST - 1),
        Ok(92_233_720_369),
        Err(FixFault::Overflow),
    ),
    Row(
        LEAST,
        0,
        Ok(LEAST),
        Ok(LEAST),
        Ok(0),
        Err(FixFault::ZeroDivide),
    ),
];

fn units(answer: Result<Fix8, FixFault>) -> Answer {
    match answer {
        Ok(number) => Ok(number.units()),
        Err(fault) => Err(fault),
    }
}

#[test]
fn arithmetic_of_doubles(rt: HostRuntime) {
    for row in &ROWS {
        let Row(x, y, sum, difference, product, quotient) = row;
        let (x, y) = (Fix8::of_units(*x), Fix8::of_units(*y));
        assert!(rt; units(x.add(y)) == *sum);
        assert!(rt; units(x.sub(y)) == *difference);
        assert!(rt; units(x.mul(y)) == *product);
        assert!(rt; units(x.div(y)) == *quotient);
    }
    assert!(rt; units(Fix8::of_whole(92_233_720_368)) == Ok(9_223_372_036_800_000_000));
    assert!(rt; units(Fix8::of_whole(-92_233_720_369)) == Err(FixFault::Overflow));
    assert_eq!(rt; Fix8::of_units(-199_999_999).whole(), -1);
    assert!(rt; units(Fix8::of_units(250_000).normalize(2)) == Ok(0));
    assert!(rt; units(Fix8::of_units(-500_000).normalize(2)) == Ok(-1_000_000));
    assert!(rt; units(Fix8::of_units(-500_000).normalize(9)) == Ok(-500_000));
    assert!(rt; units(Fix8::of_units(GREATEST).normalize(0)) == Err(FixFault::Overflow));
    assert!(rt; Fix8::of_units(200_000_000).sqrt_floor() == Some(Fix8::of_units(141_421_356)));
    assert!(rt; Fix8::of_units(-1).sqrt_floor() == None);
}

/// A text, the units that it is, and the shortest text of these.
struct Text(&'static [u8], Option<i64>, &'static [u8]);

const TEXTS: [Text; 13] = [
    Text(b"-0.5", Some(-50_000_000), b"-0.5"),
    Text(b"007", Some(700_000_000), b"7.0"),
    Text(b"-0", Some(0), b"0.0"),
    Text(b"1.10", Some(110_000_000), b"1.1"),
    Text(b"0.000000005", Some(1), b"0.00000001"),
    Text(b"-0.000000005", Some(-1), b"-0.00000001"),
    Text(b"0.00000000499999999999999999999", Some(0), b"0.0"),
    Text(
        b"92233720368.547758074",
        Some(GREATEST),
        b"92233720368.54775807",
    ),
    Text(b"92233720368.547758075", None, b""),
    Text(
        b"-92233720368.547758084",
        Some(LEAST),
        b"-92233720368.54775808",
    ),
    Text(b"1.", None, b""),
    Text(b".5", None, b""),
    Text(b"+1", None, b""),
];

#[test]
fn decimal_texts(rt: HostRuntime) {
    for row in &TEXTS {
        let Text(text, answer, shortest) = row;
        match (Fix8::of_text(text), answer) {
            (None, None) => (),
            (Some(number), Some(units)) => {
                assert_eq!(rt; number.units(), *units);
                let mut out = Text8::new(rt.alloc());
                assert!(rt; number.print(&mut out).is_ok());
                assert!(rt; out.as_slice() == *shortest);
            }
            _ => assert!(rt; false),
        }
    }
    let mut tickets = Tickets::new(rt.alloc());
    assert!(rt; tickets.reserve(2).is_ok());
    tickets.push(5);
    tickets.insert(0, 3);
    assert!(rt; tickets.as_slice() == [3u64, 5].as_slice());
}
