// Taking orders back.
use crate::setup::{call, lent, put, refused_under, terms};
use house::state::House;
use matching::rows::Side;
use std::process::Abort;
use std::test::Fail;

// A cancel where member 1 has order 1 and member 2 has order 2, the number and the value that it is
// refused with, and that both orders then stand.
fn refused(
    rt: &impl Abort,
    member: u64,
    order: u64,
    number: u8,
    value: Option<u64>,
) -> Result<(), Fail> {
    let mut rows = [lent(); 3];
    let mut house = House::open(terms(), &mut rows);
    house.enter(1, Side::Buy, call(110), 0, 4)?;
    house.enter(2, Side::Buy, put(110), 0, 5)?;
    match house.cancel(member, order) {
        Ok(()) => Err(Fail::new("it was cancelled")),
        Err(refusal) => {
            assert_eq!(rt; refusal.number(), number);
            assert_eq!(rt; refusal.values(), (value, None));
            assert_eq!(rt;
                [house.order(1), house.order(2)],
                [Some((4, 0)), Some((5, 0))]
            );
            Ok(())
        }
    }
}

#[test]
fn refused_cancels(rt: HostRuntime) -> Result<(), Fail> {
    for (member, order, number, value) in [
        (0, 1, 12, None),
        (65, 9, 12, None),
        (257, 1, 12, None),
        (1, 2, 44, Some(2)),
        (2, 1, 44, Some(1)),
        (1, 0, 44, Some(0)),
        (1, 3, 44, Some(3)),
        (3, 1, 44, Some(1)),
        (1, 4_294_967_297, 44, Some(4_294_967_297)),
        (1, u64::MAX, 44, Some(u64::MAX)),
    ] {
        refused(&rt, member, order, number, value)?;
    }
    Ok(())
}

// An order can be cancelled once. What it held is free again, and the other order stays.
#[test]
fn cancelled_once(rt: HostRuntime) -> Result<(), Fail> {
    let mut rows = [lent(); 3];
    let mut house = House::open(terms(), &mut rows);
    house.deposit(1, 50)?;
    house.enter(1, Side::Sell, call(160), 9, 1)?;
    house.enter(1, Side::Buy, put(110), 5, 2)?;
    assert_eq!(rt; house.account(1)?.held, 50);
    house.cancel(1, 1)?;
    assert_eq!(rt; house.account(1)?.held, 10);
    assert_eq!(rt; refused_under(house.cancel(1, 1)), Some(44));
    assert_eq!(rt; [house.order(1), house.order(2)], [None, Some((2, 0))]);
    assert_eq!(rt; refused_under(house.withdraw(1, 41)), Some(42));
    assert_eq!(rt; refused_under(house.withdraw(1, 40)), None);
    Ok(())
}
