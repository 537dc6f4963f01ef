// A house that was settled, before anything was filled.
use crate::setup::{Traded, call, lent, refused_under, terms};
use books::answers::Balance;
use books::refusals::Refusal;
use house::state::House;
use matching::rows::Side;
use std::test::Fail;

// Member 1 has 10, all of it held; the house has 3; the index was fixed at the ceiling.
fn close(house: &mut House<'_, Traded>) -> Result<(), Refusal> {
    house.deposit(1, 10)?;
    house.fund(3)?;
    house.enter(1, Side::Buy, call(110), 10, 1)?;
    house.settle(200)
}

#[test]
fn cash_leaves_a_closed_house(rt: HostRuntime) -> Result<(), Fail> {
    let mut rows = [lent(); 2];
    let mut house = House::open(terms(), &mut rows);
    close(&mut house)?;
    assert_eq!(rt; house.account(1)?, Balance { cash: 10, held: 0 });
    assert_eq!(rt; house.order(1), None);
    assert_eq!(rt; refused_under(house.withdraw(1, 11)), Some(42));
    house.withdraw(1, 10)?;
    assert_eq!(rt; refused_under(house.take(4)), Some(49));
    house.take(3)?;
    assert_eq!(rt; house.house().cash, 0);
    Ok(())
}

// The calls that a closed house refuses, and that an earlier test is told first.
#[test]
fn closed_calls(rt: HostRuntime) -> Result<(), Fail> {
    let mut rows = [lent(); 2];
    let mut house = House::open(terms(), &mut rows);
    close(&mut house)?;
    assert_eq!(rt;
        [
            refused_under(house.deposit(1, 1)),
            refused_under(house.deposit(1, 0))
        ],
        [Some(40), Some(13)]
    );
    assert_eq!(rt;
        [refused_under(house.fund(1)), refused_under(house.fund(0))],
        [Some(40), Some(13)]
    );
    assert_eq!(rt;
        [
            refused_under(house.cancel(1, 1)),
            refused_under(house.cancel(0, 1))
        ],
        [Some(40), Some(12)]
    );
    assert_eq!(rt;
        [
            refused_under(house.settle(200)),
            refused_under(house.settle(201))
        ],
        [Some(40), Some(17)]
    );
    assert_eq!(rt;
        refused_under(house.enter(2, Side::Buy, call(110), 9, 1)),
        Some(40)
    );
    assert_eq!(rt;
        refused_under(house.enter(2, Side::Buy, call(110), 9, 0)),
        Some(16)
    );
    Ok(())
}
