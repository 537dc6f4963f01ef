// The questions that answer from the rows and the accounts.
use crate::setup::{Traded, call, lent, put, refused_under, terms};
use books::answers::{Balance, Standing};
use books::refusals::Refusal;
use house::state::House;
use matching::rows::Side;
use std::process::Abort;
use std::test::Fail;

// Orders 1 to 3, and the second is cancelled.
fn enter_three(house: &mut House<'_, Traded>) -> Result<(), Refusal> {
    house.enter(1, Side::Buy, call(110), 0, 1)?;
    house.enter(1, Side::Buy, put(110), 0, 1)?;
    house.enter(2, Side::Buy, call(150), 0, 1)?;
    house.cancel(1, 2)
}

// Are the two the numbers 1 and 3, in either order?
fn one_and_three(first: u32, second: u32) -> bool {
    (first == 1 && second == 3) || (first == 3 && second == 1)
}

#[test]
fn lists_of_standing_orders(rt: HostRuntime) -> Result<(), Fail> {
    let mut rows = [lent(); 4];
    let mut house = House::open(terms(), &mut rows);
    enter_three(&mut house)?;
    let mut short = [7u32; 1];
    assert_eq!(rt; refused_under(house.standing(&mut short)), Some(53));
    assert_eq!(rt; short, [7]);
    let mut just = [7u32; 2];
    assert_eq!(rt; house.standing(&mut just)?, 2);
    assert!(rt; one_and_three(just[0], just[1]));
    let mut long = [7u32; 4];
    assert_eq!(rt; house.standing(&mut long)?, 2);
    assert!(rt; one_and_three(long[0], long[1]));
    assert_eq!(rt; [long[2], long[3]], [7, 7]);
    Ok(())
}

#[test]
fn no_standing_orders(rt: HostRuntime) -> Result<(), Fail> {
    let mut rows = [lent(); 4];
    let house = House::open(terms(), &mut rows);
    let mut list = [7u32; 2];
    assert_eq!(rt; house.standing(&mut list)?, 0);
    assert_eq!(rt; list, [7, 7]);
    let mut none = [7u32; 0];
    assert_eq!(rt; house.standing(&mut none)?, 0);
    Ok(())
}

// In a new house: the numbers that an account and an exposure are refused under, and that one which is
// not refused has nothing in it.
fn asks(rt: &impl Abort, member: u64, of_account: Option<u8>, price: u64, of_exposure: Option<u8>) {
    let mut rows = [lent(); 2];
    let house = House::open(terms(), &mut rows);
    if let Ok(balance) = house.account(member) {
        assert_eq!(rt; balance, Balance { cash: 0, held: 0 });
    }
    assert_eq!(rt; refused_under(house.account(member)), of_account);
    if let Ok(owed) = house.exposure(price) {
        assert_eq!(rt; owed, 0);
    }
    assert_eq!(rt; refused_under(house.exposure(price)), of_exposure);
}

#[test]
fn questions_at_limits(rt: HostRuntime) {
    for (member, of_account, price, of_exposure) in [
        (0, Some(12), 0, None),
        (1, None, 199, None),
        (64, None, 200, None),
        (65, Some(12), 201, Some(17)),
        (u64::MAX, Some(12), u64::MAX, Some(17)),
    ] {
        asks(&rt, member, of_account, price, of_exposure);
    }
}

#[test]
fn new_house(rt: HostRuntime) {
    let mut rows = [lent(); 2];
    let house = House::open(terms(), &mut rows);
    let empty = Standing {
        cash: 0,
        reserve: 0,
        clearings: 0,
        report_owed: false,
    };
    assert_eq!(rt; house.house(), empty);
    assert_eq!(rt; [house.order(0), house.order(1)], [None, None]);
    assert_eq!(rt; house.order(u64::MAX), None);
}
