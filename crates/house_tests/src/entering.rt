// Entering orders: the limits of every test, their order, and the rows.
use crate::setup::{Traded, call, invalid, lent, put, refused_under, terms};
use house::state::House;
use instruments::choices::Either;
use instruments::spreads::Spread;
use matching::rows::Side;
use std::process::Abort;
use std::test::Fail;

// A buy in a new house where member 1 alone has cash, more than any order costs, and the number that it is
// refused under.
fn buys(
    rt: &impl Abort,
    member: u64,
    contract: Traded,
    price: u64,
    lots: u64,
    number: Option<u8>,
) -> Result<(), Fail> {
    let mut rows = [lent(); 1];
    let mut house = House::open(terms(), &mut rows);
    house.deposit(1, 1_000_000_000_000)?;
    assert_eq!(rt;
        refused_under(house.enter(member, Side::Buy, contract, price, lots)),
        number
    );
    assert_eq!(rt; house.order(1).is_some(), number.is_none());
    Ok(())
}

#[test]
fn prices_and_lots_at_limits(rt: HostRuntime) -> Result<(), Fail> {
    for (price, lots, number) in [
        (0, 1, None),
        (1_000_000, 1, None),
        (1_000_001, 1, Some(15)),
        (4_294_967_296, 1, Some(15)),
        (u64::MAX, 1, Some(15)),
        (9, 0, Some(16)),
        (9, 1000, None),
        (1_000_000, 1000, None),
        (9, 1001, Some(16)),
        (9, 65_537, Some(16)),
        (9, u64::MAX, Some(16)),
    ] {
        buys(&rt, 1, call(110), price, lots, number)?;
    }
    Ok(())
}

// A call that fails several tests is told the first.
#[test]
fn tests_in_order(rt: HostRuntime) -> Result<(), Fail> {
    for (member, strike, price, lots, number) in [
        (0, 0, 1_000_001, 0, Some(12)),
        (65, 0, 1_000_001, 0, Some(12)),
        (257, 110, 9, 1, Some(12)),
        (2, 0, 1_000_001, 0, Some(14)),
        (2, 201, 1_000_001, 0, Some(14)),
        (2, 110, 1_000_001, 0, Some(15)),
        (2, 110, 1_000_000, 0, Some(16)),
        (2, 200, 1, 1, Some(42)),
        (64, 1, 0, 1000, None),
    ] {
        buys(&rt, member, call(strike), price, lots, number)?;
    }
    Ok(())
}

#[test]
fn invalid_contracts(rt: HostRuntime) -> Result<(), Fail> {
    let rising = Either::Right(Spread::Rising { low: 5, high: 5 });
    let falling = Either::Right(Spread::Falling { low: 0, high: 201 });
    for (contract, reason) in [(call(0), 1), (put(201), 1), (rising, 2), (falling, 2)] {
        invalid(&rt, &mut [lent()], Side::Sell, contract, reason, 0)?;
    }
    Ok(())
}

// No row is lent: an order that is not covered is told that first, and one that is has no room.
#[test]
fn no_rows(rt: HostRuntime) {
    let mut rows = [lent(); 0];
    let mut house = House::open(terms(), &mut rows);
    assert_eq!(rt;
        refused_under(house.enter(1, Side::Buy, call(110), 9, 1)),
        Some(42)
    );
    assert_eq!(rt;
        refused_under(house.enter(1, Side::Buy, call(110), 0, 1)),
        Some(43)
    );
}

// Two rows are lent: a cancelled order gives its row back, and no number is used twice or left out.
#[test]
fn two_rows(rt: HostRuntime) -> Result<(), Fail> {
    let mut rows = [lent(); 2];
    let mut house = House::open(terms(), &mut rows);
    assert_eq!(rt; house.enter(1, Side::Buy, call(110), 0, 1)?, 1);
    assert_eq!(rt; house.enter(2, Side::Buy, put(110), 0, 2)?, 2);
    assert_eq!(rt;
        refused_under(house.enter(3, Side::Buy, call(110), 0, 1)),
        Some(43)
    );
    house.cancel(1, 1)?;
    assert_eq!(rt; house.enter(3, Side::Buy, call(110), 0, 3)?, 3);
    assert_eq!(rt;
        refused_under(house.enter(3, Side::Buy, call(110), 0, 1)),
        Some(43)
    );
    assert_eq!(rt; [house.order(0), house.order(1)], [None, None]);
    assert_eq!(rt;
        [house.order(2), house.order(3)],
        [Some((2, 0)), Some((3, 0))]
    );
    Ok(())
}

// Of more than 256 rows the house uses 256.
#[test]
fn all_rows(rt: HostRuntime) -> Result<(), Fail> {
    let mut rows = [lent(); 258];
    let mut house = House::open(terms(), &mut rows);
    for number in 1..=256u32 {
        assert_eq!(rt; house.enter(1, Side::Buy, call(110), 0, 1)?, number);
    }
    assert_eq!(rt;
        refused_under(house.enter(1, Side::Buy, call(110), 0, 1)),
        Some(43)
    );
    house.cancel(1, 256)?;
    assert_eq!(rt; house.enter(64, Side::Buy, call(110), 0, 1)?, 257);
    assert_eq!(rt;
        refused_under(house.enter(1, Side::Buy, call(110), 0, 1)),
        Some(43)
    );
    Ok(())
}
