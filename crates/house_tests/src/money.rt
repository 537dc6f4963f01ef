// Cash in and out, at the limits of every test.
use crate::setup::{call, lent, refused_under, terms};
use books::answers::Balance;
use house::state::House;
use matching::rows::Side;
use std::process::Abort;
use std::test::Fail;

const MOST: u64 = 1_000_000_000_000;

// A deposit in a new house, and the number that it is refused under.
fn deposits(rt: &impl Abort, member: u64, amount: u64, number: Option<u8>) -> Result<(), Fail> {
    let mut rows = [lent(); 1];
    let mut house = House::open(terms(), &mut rows);
    assert_eq!(rt; refused_under(house.deposit(member, amount)), number);
    let cash = if number.is_none() { amount } else { 0 };
    match house.account(member) {
        Ok(balance) => {
            assert_eq!(rt; balance.cash, i128::from(cash));
            Ok(())
        },
        Err(refusal) => {
            assert_eq!(rt; refusal.number(), 12);
            Ok(())
        },
    }
}

#[test]
fn deposits_at_limits(rt: HostRuntime) -> Result<(), Fail> {
    for (member, amount, number) in [
        (0, 1, Some(12)),
        (1, 1, None),
        (64, 1, None),
        (65, 1, Some(12)),
        (u64::MAX, 1, Some(12)),
        (1, 0, Some(13)),
        (1, MOST, None),
        (1, MOST + 1, Some(13)),
        (1, u64::MAX, Some(13)),
        (0, 0, Some(12)),
        (65, u64::MAX, Some(12)),
    ] {
        deposits(&rt, member, amount, number)?;
    }
    Ok(())
}

// A fund in a new house, and the number that it is refused under.
fn funds(rt: &impl Abort, amount: u64, number: Option<u8>) {
    let mut rows = [lent(); 1];
    let mut house = House::open(terms(), &mut rows);
    assert_eq!(rt; refused_under(house.fund(amount)), number);
    let cash = if number.is_none() { amount } else { 0 };
    assert_eq!(rt; house.house().cash, i128::from(cash));
}

#[test]
fn funds_at_limits(rt: HostRuntime) {
    for (amount, number) in [
        (0, Some(13)),
        (1, None),
        (MOST, None),
        (MOST + 1, Some(13)),
        (u64::MAX, Some(13)),
    ] {
        funds(&rt, amount, number);
    }
}

// All cash together: one below its limit, at it, and what would pass it.
#[test]
fn all_cash(rt: HostRuntime) -> Result<(), Fail> {
    let mut rows = [lent(); 1];
    let mut house = House::open(terms(), &mut rows);
    house.deposit(1, MOST - 1)?;
    assert_eq!(rt;
        [
            refused_under(house.deposit(64, 2)),
            refused_under(house.fund(2))
        ],
        [Some(46), Some(46)]
    );
    house.fund(1)?;
    assert_eq!(rt;
        [
            refused_under(house.deposit(64, 1)),
            refused_under(house.fund(1))
        ],
        [Some(46), Some(46)]
    );
    assert_eq!(rt; refused_under(house.deposit(64, MOST + 1)), Some(13));
    assert_eq!(rt; house.account(1)?.cash, i128::from(MOST - 1));
    assert_eq!(rt; house.account(64)?.cash, 0);
    assert_eq!(rt; house.house().cash, 1);
    Ok(())
}

// A withdrawal where member 2 alone has cash, which is 100, and the number that it is refused under.
fn withdraws(rt: &impl Abort, member: u64, amount: u64, number: Option<u8>) -> Result<(), Fail> {
    let mut rows = [lent(); 1];
    let mut house = House::open(terms(), &mut rows);
    house.deposit(2, 100)?;
    assert_eq!(rt; refused_under(house.withdraw(member, amount)), number);
    let left = if number.is_none() && amount <= 100 {
        100 - amount
    } else {
        100
    };
    assert_eq!(rt; house.account(2)?.cash, i128::from(left));
    Ok(())
}

#[test]
fn withdrawals_at_limits(rt: HostRuntime) -> Result<(), Fail> {
    for (member, amount, number) in [
        (0, 1, Some(12)),
        (65, 1, Some(12)),
        (0, 0, Some(12)),
        (2, 0, Some(13)),
        (2, MOST + 1, Some(13)),
        (2, u64::MAX, Some(13)),
        (2, 99, None),
        (2, 100, None),
        (2, 101, Some(42)),
        (2, MOST, Some(42)),
        (1, 1, Some(42)),
        (3, 1, Some(42)),
    ] {
        withdraws(&rt, member, amount, number)?;
    }
    Ok(())
}

// What an order holds cannot be withdrawn: here 9 of 10.
#[test]
fn withdrawals_of_held_cash(rt: HostRuntime) -> Result<(), Fail> {
    let mut rows = [lent(); 1];
    let mut house = House::open(terms(), &mut rows);
    house.deposit(2, 10)?;
    house.enter(2, Side::Buy, call(110), 3, 3)?;
    assert_eq!(rt; refused_under(house.withdraw(2, 2)), Some(42));
    house.withdraw(2, 1)?;
    assert_eq!(rt; refused_under(house.withdraw(2, 1)), Some(42));
    assert_eq!(rt; house.account(2)?, Balance { cash: 9, held: 9 });
    Ok(())
}

// A take where the house has 44 and a member has 100, and the number that it is refused under.
fn takes(rt: &impl Abort, amount: u64, number: Option<u8>) -> Result<(), Fail> {
    let mut rows = [lent(); 1];
    let mut house = House::open(terms(), &mut rows);
    house.deposit(1, 100)?;
    house.fund(44)?;
    assert_eq!(rt; refused_under(house.take(amount)), number);
    let left = if number.is_none() && amount <= 44 {
        44 - amount
    } else {
        44
    };
    assert_eq!(rt; house.house().cash, i128::from(left));
    Ok(())
}

#[test]
fn takes_at_limits(rt: HostRuntime) -> Result<(), Fail> {
    for (amount, number) in [
        (0, Some(13)),
        (1, None),
        (44, None),
        (45, Some(49)),
        (MOST, Some(49)),
        (MOST + 1, Some(13)),
        (u64::MAX, Some(13)),
    ] {
        takes(&rt, amount, number)?;
    }
    Ok(())
}
