//! Input files, and the first word of a file that can't stand.
use mill_model::{Kind, Mill, Order};
use mill_read::{TextError, TextFault, Why, read_orders, read_plan, read_yard};
use std::alloc::Global;
use std::test::Fail;

// The number of the first word that can't stand, and why.
fn refused(word: u32, why: Why) -> Option<TextError> {
    Some(TextError::Text(TextFault { word, why }))
}

const FIVE: Order = Order {
    weight: 5,
    colour: 1,
};

// Whether it is a mill of one size, one colour and two equal orders.
fn is_two_fives(mill: &Mill) -> bool {
    mill.sizes() == [10].as_slice()
        && mill.orders() == [FIVE, FIVE].as_slice()
        && mill.colours() == 1
        && mill.colour_limit() == 2
        && mill.yard().is_empty()
        && mill.bars().is_empty()
}

#[test]
fn orders_are_read(rt: HostRuntime) -> Result<(), Fail> {
    for text in [
        "1 10 1 2 5 1 5 1\n",
        "\t1\r\n10\x0b1\x0c2  5 1\n5 1",
        "01 0010 1 2 005 1 5 01",
    ] {
        let mill = read_orders(rt.alloc(), text.as_bytes())?;
        assert!(rt; is_two_fives(&mill), "{text}");
    }
    let mill = read_orders(rt.alloc(), b"3 10 4 10 1 0")?;
    assert!(rt; mill.sizes() == [10, 4, 10].as_slice() && mill.orders().is_empty());
    Ok(())
}

#[test]
fn orders_are_refused(rt: HostRuntime) {
    for (text, word, why) in [
        (b"".as_slice(), 1, Why::Missing),
        (b" \n".as_slice(), 1, Why::Missing),
        (b"1 10 1 1 5".as_slice(), 6, Why::Missing),
        (b"1 10 1 1 5 2".as_slice(), 6, Why::Colour),
        (b"1 10 250 1 5 251".as_slice(), 6, Why::Colour),
        (b"1 10 1 1 5 1 7".as_slice(), 7, Why::Extra),
        (b"1 10001 1 1 5 1".as_slice(), 2, Why::Range),
        (b"1 10001 1 1 x".as_slice(), 2, Why::Range),
        (b"0 1 0".as_slice(), 1, Why::Range),
        (b"1 10 251 0".as_slice(), 3, Why::Range),
        (b"1 10 1 251".as_slice(), 4, Why::Range),
        (b"1 10 1 1 -5 1".as_slice(), 5, Why::NotNumber),
        (b"1 10 1 1 5 x".as_slice(), 6, Why::NotNumber),
        (b"1 10 1 1 65541 1".as_slice(), 5, Why::Range),
        (b"\xff\xfe\x00".as_slice(), 1, Why::NotNumber),
    ] {
        let answer = read_orders(rt.alloc(), text).err();
        assert!(rt; answer == refused(word, why), "{text:?}");
    }
}

// A mill with one order, whose weight is written with 400 digits.
fn read_long(alloc: Global, digit: u8, last: u8) -> Result<Mill, TextError> {
    let mut text = Vec::from_slice(alloc, b"1 10 1 1 ".as_slice())?;
    text.extend_from_slice(&[digit; 399])?;
    text.extend_from_slice(&[last])?;
    text.extend_from_slice(b" 1")?;
    read_orders(alloc, &text)
}

#[test]
fn numbers_have_any_length(rt: HostRuntime) -> Result<(), Fail> {
    let nines = read_long(rt.alloc(), b'9', b'9').err();
    assert!(rt; nines == refused(5, Why::Range));
    let five = read_long(rt.alloc(), b'0', b'5')?;
    assert!(rt; five.orders() == [FIVE].as_slice());
    Ok(())
}

// Two orders, for the sizes 4 and 10.
const TWO_FOURS: &[u8] = b"2 4 10 1 2 4 1 4 1";

#[test]
fn yards_are_read(rt: HostRuntime) -> Result<(), Fail> {
    let mill = read_orders(rt.alloc(), TWO_FOURS)?;
    for (text, sizes, bars) in [
        (
            "2 10000 1 3 1 2 2 1 1 2\n",
            [10000, 1].as_slice(),
            [(0, 1), (1, 0), (0, 1)].as_slice(),
        ),
        ("1 9\n", [9].as_slice(), [].as_slice()),
        ("1 9 0", [9].as_slice(), [].as_slice()),
    ] {
        let yard = read_yard(rt.alloc(), &mill, text.as_bytes())?;
        assert!(rt; yard.sizes() == sizes && yard.bars() == bars, "{text}");
    }
    Ok(())
}

#[test]
fn yards_are_refused(rt: HostRuntime) -> Result<(), Fail> {
    let mill = read_orders(rt.alloc(), TWO_FOURS)?;
    for (text, word, why) in [
        ("", 1, Why::Missing),
        ("41 1", 1, Why::Range),
        ("2 9", 3, Why::Missing),
        ("1 0", 2, Why::Range),
        ("one 9", 1, Why::NotNumber),
        ("1 9 10001 1", 3, Why::Range),
        ("1 9 2", 4, Why::Missing),
        ("1 9 1 0 1", 4, Why::Range),
        ("1 9 1 3 x", 4, Why::Range),
        ("1 9 1 x 1", 4, Why::NotNumber),
        ("1 9 1 2 2", 5, Why::Range),
        ("1 9 1 2", 5, Why::Missing),
        ("1 9 1 2 1 1", 6, Why::Extra),
        ("0 1 1 1", 4, Why::Range),
    ] {
        let answer = read_yard(rt.alloc(), &mill, text.as_bytes()).err();
        assert!(rt; answer == refused(word, why), "{text}");
    }
    Ok(())
}

#[test]
fn plans_are_read(rt: HostRuntime) -> Result<(), Fail> {
    let mill = read_orders(rt.alloc(), TWO_FOURS)?;
    let twice = [Kind::Old(0), Kind::Old(0)];
    for (text, kinds, place) in [
        ("2 old 1 old 1 1 2", twice.as_slice(), [0, 1].as_slice()),
        (
            "1 new 10 1 65535",
            [Kind::New(10)].as_slice(),
            [0, 65534].as_slice(),
        ),
    ] {
        let plan = read_plan(rt.alloc(), &mill, text.as_bytes())?;
        assert!(rt; plan.kinds() == kinds && plan.place() == place, "{text}");
    }
    Ok(())
}

#[test]
fn plans_are_refused(rt: HostRuntime) -> Result<(), Fail> {
    let mill = read_orders(rt.alloc(), TWO_FOURS)?;
    for (text, word, why) in [
        ("", 1, Why::Missing),
        ("1001 neu", 1, Why::Range),
        ("1 neu 5 1", 2, Why::Kind),
        ("1 newer 5 1", 2, Why::Kind),
        ("1 5 new 1 1", 2, Why::Kind),
        ("1 new", 3, Why::Missing),
        ("1 new 65536 1 1", 3, Why::Range),
        ("1 old 0 1 1", 3, Why::Range),
        ("1 new 5 0 1", 4, Why::Range),
        ("1 new 5 1", 5, Why::Missing),
        ("1 new 5 1 1 1", 6, Why::Extra),
    ] {
        let answer = read_plan(rt.alloc(), &mill, text.as_bytes()).err();
        assert!(rt; answer == refused(word, why), "{text}");
    }
    Ok(())
}
