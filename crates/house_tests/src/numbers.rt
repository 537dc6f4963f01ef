// The last number of an order and of a clearing is 999,999.
use crate::clearing::{clear_onto, weigh};
use crate::setup::{Traded, call, lent, refused_under, terms};
use books::refusals::Refusal;
use house::state::House;
use matching::rows::Side;
use std::test::Fail;

#[test]
fn order_numbers(rt: HostRuntime) -> Result<(), Fail> {
    let mut rows = [lent(); 1];
    let mut house = House::open(terms(), &mut rows);
    for number in 1..=999_999u32 {
        assert_eq!(rt; house.enter(1, Side::Buy, call(110), 0, 1)?, number);
        house.cancel(1, u64::from(number))?;
    }
    assert_eq!(rt;
        refused_under(house.enter(1, Side::Buy, call(110), 0, 1)),
        Some(50)
    );
    assert_eq!(rt;
        refused_under(house.enter(1, Side::Buy, call(110), 1, 1)),
        Some(42)
    );
    Ok(())
}

// A clearing without fills.
fn clear_nothing(house: &mut House<'_, Traded>) -> Result<usize, Refusal> {
    let mut page = [0u8; 285];
    clear_onto(house, &[], &[weigh(0, 1)], &mut page)
}

#[test]
fn clearing_numbers(rt: HostRuntime) -> Result<(), Fail> {
    let mut rows = [lent(); 1];
    let mut house = House::open(terms(), &mut rows);
    for _ in 0..999_999u32 {
        clear_nothing(&mut house)?;
    }
    assert_eq!(rt; house.house().clearings, 999_999);
    assert_eq!(rt; refused_under(clear_nothing(&mut house)), Some(50));
    assert_eq!(rt; refused_under(house.settle(200)), None);
    Ok(())
}
