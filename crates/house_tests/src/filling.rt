// Orders of two lots that are filled one lot at a time. At 119 the call 110 pays 9, which is its price
// here: so every matching of the two orders has the net 0 and the gap 0.
use crate::clearing::{clear_onto, fill, weigh};
use crate::setup::{Traded, call, lent, refused_under, terms};
use books::answers::Balance;
use books::refusals::Refusal;
use house::state::House;
use matching::rows::Side;
use std::test::Fail;

fn enter_two(house: &mut House<'_, Traded>) -> Result<(), Refusal> {
    house.deposit(1, 18)?;
    house.deposit(2, 180)?;
    house.enter(1, Side::Buy, call(110), 9, 2)?;
    house.enter(2, Side::Sell, call(110), 9, 2)?;
    Ok(())
}

// One lot of each.
fn clear_one(house: &mut House<'_, Traded>) -> Result<usize, Refusal> {
    let mut page = [0u8; 285];
    clear_onto(
        house,
        &[fill(1, 1), fill(2, 1)],
        &[weigh(119, 1)],
        &mut page,
    )
}

#[test]
fn cleared_twice(rt: HostRuntime) -> Result<(), Fail> {
    let mut rows = [lent(); 2];
    let mut house = House::open(terms(), &mut rows);
    enter_two(&mut house)?;
    clear_one(&mut house)?;
    assert_eq!(rt;
        [house.order(1), house.order(2)],
        [Some((1, 1)), Some((1, 1))]
    );
    assert_eq!(rt; house.account(1)?, Balance { cash: 9, held: 9 });
    clear_one(&mut house)?;
    assert_eq!(rt;
        [house.order(1), house.order(2)],
        [Some((0, 2)), Some((0, 2))]
    );
    assert_eq!(rt; house.account(1)?, Balance { cash: 0, held: 0 });
    assert_eq!(rt; house.house().clearings, 2);
    assert_eq!(rt; refused_under(clear_one(&mut house)), Some(44));
    Ok(())
}

// Filled lots stay when the open ones are cancelled, and with them the row and a seller's hold.
#[test]
fn cancelled_when_half_filled(rt: HostRuntime) -> Result<(), Fail> {
    let mut rows = [lent(); 2];
    let mut house = House::open(terms(), &mut rows);
    enter_two(&mut house)?;
    clear_one(&mut house)?;
    house.cancel(1, 1)?;
    house.cancel(2, 2)?;
    assert_eq!(rt;
        [house.order(1), house.order(2)],
        [Some((0, 1)), Some((0, 1))]
    );
    assert_eq!(rt; house.account(1)?, Balance { cash: 9, held: 0 });
    let seller = Balance {
        cash: 189,
        held: 90,
    };
    assert_eq!(rt; house.account(2)?, seller);
    assert_eq!(rt; refused_under(house.cancel(2, 2)), Some(44));
    assert_eq!(rt;
        refused_under(house.enter(1, Side::Buy, call(110), 0, 1)),
        Some(43)
    );
    Ok(())
}

// At 150 each filled lot pays 40 from the seller to the buyer.
#[test]
fn settled_when_half_filled(rt: HostRuntime) -> Result<(), Fail> {
    let mut rows = [lent(); 2];
    let mut house = House::open(terms(), &mut rows);
    enter_two(&mut house)?;
    clear_one(&mut house)?;
    house.settle(150)?;
    assert_eq!(rt; house.account(1)?, Balance { cash: 49, held: 0 });
    assert_eq!(rt; house.account(2)?, Balance { cash: 149, held: 0 });
    assert_eq!(rt; [house.order(1), house.order(2)], [None, None]);
    assert_eq!(rt; house.house().cash, 0);
    Ok(())
}
