// A house of options or pairs of options.
use crate::setup::{invalid, refused_under, terms};
use books::answers::Balance;
use house::state::House;
use instruments::choices::Either;
use instruments::options::Vanilla;
use instruments::pairs::Pair;
use matching::rows::{Row, Side};
use std::test::Fail;

type Options = Either<Vanilla, Pair<Vanilla, Vanilla>>;

fn call_and_put(call: u64, put: u64) -> Options {
    Either::Right(Pair {
        first: Vanilla::Call { strike: call },
        second: Vanilla::Put { strike: put },
    })
}

fn lent() -> Row<Options> {
    Row {
        order: 1,
        member: 1,
        side: Side::Buy,
        contract: call_and_put(0, 0),
        price: 0,
        open: 1,
        filled: 1,
    }
}

// The call holds 200 − 100 and the put holds 100.
#[test]
fn sold_pair(rt: HostRuntime) -> Result<(), Fail> {
    let mut rows = [lent(); 2];
    let mut house = House::open(terms(), &mut rows);
    house.deposit(1, 199)?;
    let pair = call_and_put(100, 100);
    assert_eq!(rt;
        refused_under(house.enter(1, Side::Sell, pair, 6, 1)),
        Some(42)
    );
    house.deposit(1, 1)?;
    assert_eq!(rt; house.enter(1, Side::Sell, pair, 6, 1)?, 1);
    let all = Balance {
        cash: 200,
        held: 200,
    };
    assert_eq!(rt; house.account(1)?, all);
    assert_eq!(rt; house.order(1), Some((1, 0)));
    Ok(())
}

#[test]
fn invalid_pairs(rt: HostRuntime) -> Result<(), Fail> {
    let option = Either::Left(Vanilla::Put { strike: 201 });
    for (contract, place) in [
        (call_and_put(0, 100), 1),
        (call_and_put(100, 201), 2),
        (call_and_put(201, 0), 1),
        (option, 0),
    ] {
        invalid(&rt, &mut [lent()], Side::Buy, contract, 1, place)?;
    }
    Ok(())
}
