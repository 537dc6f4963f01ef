// Answers worked out by hand under the ceiling 200, at the prices and figures where a slip would show.
use crate::constant::Flat;
use crate::together::{check_constants, constant_and_call};
use instruments::bounds::Ceiling;
use instruments::choices::Either;
use instruments::kind::Contract;
use instruments::options::Vanilla;
use instruments::pairs::Pair;
use instruments::spreads::Spread;
use instruments::worked::worked_ceiling;
use std::process::Abort;

// What one lot pays at each of the prices.
fn pays<C: Contract>(rt: &impl Abort, contract: C, prices: &[u64], payoffs: &[u32]) {
    assert_eq!(rt; prices.len(), payoffs.len());
    for (price, payoff) in prices.iter().zip(payoffs) {
        assert_eq!(rt;
            contract.payoff(worked_ceiling(), *price),
            *payoff,
            "at {price}"
        );
    }
}

// The collateral, and all the breakpoints: the one past the last is 0.
fn has<C: Contract>(rt: &impl Abort, contract: C, collateral: u32, breakpoints: &[u32]) {
    let ceiling = worked_ceiling();
    let count = contract.breakpoints(ceiling);
    assert_eq!(rt; contract.collateral(ceiling), collateral);
    assert_eq!(rt; usize::from(count), breakpoints.len());
    for (index, price) in breakpoints.iter().enumerate() {
        assert_eq!(rt; contract.breakpoint(ceiling, index as u64), *price);
    }
    assert_eq!(rt; contract.breakpoint(ceiling, u64::from(count)), 0);
}

// The numbers of the reason and the place, where the contract is not valid.
fn fault<C: Contract>(contract: C) -> Option<(u8, u8)> {
    contract
        .check(worked_ceiling())
        .err()
        .map(|fault| (fault.reason.number(), fault.place.number()))
}

// The figure of the ceiling that this one makes.
fn figure(value: u64) -> Option<u32> {
    Ceiling::new(value).map(|ceiling| ceiling.value)
}

fn call(strike: u64) -> Vanilla {
    Vanilla::Call { strike }
}

fn put(strike: u64) -> Vanilla {
    Vanilla::Put { strike }
}

fn rising(low: u64, high: u64) -> Spread {
    Spread::Rising { low, high }
}

fn falling(low: u64, high: u64) -> Spread {
    Spread::Falling { low, high }
}

fn flat(amount: u64) -> Flat {
    Flat { amount }
}

fn both<A, B>(first: A, second: B) -> Pair<A, B> {
    Pair { first, second }
}

#[test]
fn ceilings(rt: HostRuntime) {
    assert_eq!(rt; figure(0), None);
    assert_eq!(rt; figure(1), Some(1));
    assert_eq!(rt; figure(100_000), Some(100_000));
    assert_eq!(rt; figure(100_001), None);
}

#[test]
fn options(rt: HostRuntime) {
    let prices = [0, 109, 110, 111, 130, 200, 201, u64::MAX];
    pays(&rt, call(110), &prices, &[0, 0, 0, 1, 20, 90, 0, 0]);
    pays(&rt, put(110), &prices, &[110, 1, 0, 0, 0, 0, 0, 0]);
    pays(&rt, put(201), &prices, &[0, 0, 0, 0, 0, 0, 0, 0]);
    has(&rt, call(110), 90, &[110]);
    has(&rt, put(110), 110, &[110]);
    has(&rt, put(201), 0, &[]);
    assert_eq!(rt; [fault(call(0)), fault(call(1))], [Some((1, 0)), None]);
    assert_eq!(rt; [fault(put(200)), fault(put(201))], [None, Some((1, 0))]);
}

#[test]
fn spreads(rt: HostRuntime) {
    let prices = [0, 99, 100, 101, 119, 120, 121, 200, 201];
    pays(
        &rt,
        rising(100, 120),
        &prices,
        &[0, 0, 0, 1, 19, 20, 20, 20, 0],
    );
    pays(
        &rt,
        falling(100, 120),
        &prices,
        &[20, 20, 20, 19, 1, 0, 0, 0, 0],
    );
    pays(
        &rt,
        falling(100, 100),
        &prices,
        &[0, 0, 0, 0, 0, 0, 0, 0, 0],
    );
    has(&rt, rising(100, 120), 20, &[100, 120]);
    has(&rt, falling(100, 120), 20, &[100, 120]);
    has(&rt, falling(100, 100), 0, &[]);
    assert_eq!(rt;
        [fault(rising(1, 0)), fault(rising(0, 1))],
        [Some((2, 0)), None]
    );
    assert_eq!(rt;
        [fault(falling(0, 200)), fault(falling(0, 201))],
        [None, Some((2, 0))]
    );
}

#[test]
fn pairs(rt: HostRuntime) {
    let prices = [0, 99, 100, 101, 200, 201];
    let straddle = both(call(100), put(100));
    let eight = both(both(straddle, straddle), both(straddle, straddle));
    let nine = both(eight, call(100));
    pays(&rt, straddle, &prices, &[100, 1, 0, 1, 100, 0]);
    pays(&rt, nine, &prices, &[0, 0, 0, 0, 0, 0]);
    has(&rt, straddle, 200, &[100, 100]);
    has(&rt, eight, 800, &[100, 100, 100, 100, 100, 100, 100, 100]);
    has(&rt, nine, 0, &[]);
    assert_eq!(rt;
        [fault(eight), fault(nine), fault(both(call(100), nine))],
        [None, Some((3, 0)), Some((3, 2))]
    );
    assert_eq!(rt;
        [
            fault(both(call(0), put(201))),
            fault(both(call(1), put(201))),
        ],
        [Some((1, 1)), Some((1, 2))]
    );
    assert_eq!(rt; fault(both(straddle, both(call(0), put(1)))), Some((1, 2)));
}

#[test]
fn choices(rt: HostRuntime) {
    let option: Either<Vanilla, Spread> = Either::Left(put(50));
    let spread: Either<Vanilla, Spread> = Either::Right(rising(100, 120));
    let pair: Either<Vanilla, Pair<Vanilla, Vanilla>> = Either::Right(both(call(100), put(0)));
    pays(
        &rt,
        both(option, spread),
        &[0, 49, 50, 110, 200, 201],
        &[50, 1, 0, 10, 20, 0],
    );
    has(&rt, both(option, spread), 70, &[50, 100, 120]);
    assert_eq!(rt;
        [fault(pair), fault(both(pair, option))],
        [Some((1, 2)), Some((1, 1))]
    );
}

#[test]
fn constants(rt: HostRuntime) {
    let prices = [0, 99, 100, 101, 200, 201];
    pays(
        &rt,
        both(flat(5), call(100)),
        &prices,
        &[5, 5, 5, 6, 105, 0],
    );
    pays(&rt, flat(1_000_001), &prices, &[0, 0, 0, 0, 0, 0]);
    has(&rt, both(flat(5), call(100)), 105, &[100]);
    assert_eq!(rt;
        [fault(flat(1_000_000)), fault(flat(1_000_001))],
        [None, Some((4, 0))]
    );
    assert_eq!(rt; fault(both(flat(600_000), flat(600_000))), Some((4, 0)));
    assert!(rt; check_constants(worked_ceiling(), 600_000, 400_000).is_ok());
    assert!(rt; check_constants(worked_ceiling(), 600_000, 400_001).is_err());
    assert_eq!(rt; constant_and_call(worked_ceiling(), 5, 100, 130), 35);
}
