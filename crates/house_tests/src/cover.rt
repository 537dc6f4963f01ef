// What a sold contract holds of its member's cash.
use crate::setup::{call, lent, put, refused_under, terms};
use books::answers::Balance;
use house::state::House;
use matching::rows::Side;
use std::test::Fail;

#[test]
fn sold_put(rt: HostRuntime) -> Result<(), Fail> {
    let mut rows = [lent(); 2];
    let mut house = House::open(terms(), &mut rows);
    house.deposit(1, 109)?;
    assert_eq!(rt;
        refused_under(house.enter(1, Side::Sell, put(110), 6, 1)),
        Some(42)
    );
    house.deposit(1, 1)?;
    assert_eq!(rt; house.enter(1, Side::Sell, put(110), 6, 1)?, 1);
    let all = Balance {
        cash: 110,
        held: 110,
    };
    assert_eq!(rt; house.account(1)?, all);
    assert_eq!(rt; house.order(1), Some((1, 0)));
    assert_eq!(rt; refused_under(house.settle(201)), Some(17));
    Ok(())
}

// A sold call holds what it can pay at the ceiling, and a buy what it costs, for all lots together.
#[test]
fn covers_of_many_lots(rt: HostRuntime) -> Result<(), Fail> {
    let mut rows = [lent(); 2];
    let mut house = House::open(terms(), &mut rows);
    house.deposit(1, 149)?;
    assert_eq!(rt;
        refused_under(house.enter(1, Side::Sell, call(150), 1, 3)),
        Some(42)
    );
    assert_eq!(rt;
        refused_under(house.enter(1, Side::Buy, call(150), 50, 3)),
        Some(42)
    );
    house.deposit(1, 1)?;
    assert_eq!(rt; house.enter(1, Side::Sell, call(150), 1, 2)?, 1);
    assert_eq!(rt;
        refused_under(house.enter(1, Side::Buy, call(150), 17, 3)),
        Some(42)
    );
    assert_eq!(rt; house.enter(1, Side::Buy, call(150), 25, 2)?, 2);
    let all = Balance {
        cash: 150,
        held: 150,
    };
    assert_eq!(rt; house.account(1)?, all);
    Ok(())
}
