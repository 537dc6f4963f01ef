// Quotes in a house without orders.
use crate::clearing::{fill, weigh};
use crate::setup::{call, lent, refused_under, terms};
use house::state::House;
use matching::proposals::{Fill, Weight};
use matching::quotes::Request;
use std::process::Abort;
use std::test::Fail;

#[test]
fn bid_and_ask(rt: HostRuntime) -> Result<(), Fail> {
    let mut rows = [lent(); 1];
    let house = House::open(terms(), &mut rows);
    let ask = house.quote(call(110), Request::Ask, 1, &[], &[weigh(200, 1)])?;
    assert_eq!(rt; [ask.premium, ask.reserve, ask.gap], [90, 90, 0]);
    assert_eq!(rt; [ask.worst, ask.weights], [200, 1]);
    let bid = house.quote(call(110), Request::Bid, 1, &[], &[weigh(0, 1)])?;
    assert_eq!(rt; [bid.premium, bid.reserve, bid.gap], [0, 0, 0]);
    assert_eq!(rt; [bid.worst, bid.weights], [0, 1]);
    Ok(())
}

// The number that an ask for a call is refused under.
fn asks(
    rt: &impl Abort,
    strike: u64,
    lots: u64,
    fills: &[Fill],
    weights: &[Weight],
    number: Option<u8>,
) {
    let mut rows = [lent(); 1];
    let house = House::open(terms(), &mut rows);
    let answer = house.quote(call(strike), Request::Ask, lots, fills, weights);
    assert_eq!(rt; refused_under(answer), number);
}

// One that fails several tests is told the first. With the weight at 199 the gap is 90 − 89.
#[test]
fn refused_quotes(rt: HostRuntime) {
    asks(&rt, 201, 0, &[fill(9, 0)], &[], Some(14));
    asks(&rt, 110, 0, &[fill(9, 0)], &[], Some(16));
    asks(&rt, 110, 1001, &[fill(9, 0)], &[], Some(16));
    asks(&rt, 110, 1, &[fill(9, 0)], &[], Some(18));
    asks(&rt, 110, 1, &[fill(9, 1)], &[], Some(19));
    asks(&rt, 110, 1, &[fill(1, 1)], &[weigh(200, 1)], Some(44));
    asks(&rt, 110, 1, &[], &[weigh(199, 1)], Some(48));
    asks(&rt, 110, 1000, &[], &[weigh(200, 1)], None);
}
