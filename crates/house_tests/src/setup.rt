// A house to test, under the ceiling 200 and with the allowed gap 0, and what its answers tell.
use books::refusals::Refusal;
use books::terms::Terms;
use house::state::House;
use instruments::bounds::Ceiling;
use instruments::choices::Either;
pub use instruments::choices::Traded;
use instruments::kind::Contract;
use instruments::options::Vanilla;
use matching::rows::{Row, Side};
use std::process::Abort;
use std::test::Fail;

pub fn terms() -> Terms {
    Terms {
        house: 1,
        ceiling: Ceiling { value: 200 },
        gap: 0,
    }
}

pub fn call(strike: u64) -> Traded {
    Either::Left(Vanilla::Call { strike })
}

pub fn put(strike: u64) -> Traded {
    Either::Left(Vanilla::Put { strike })
}

// A row as a caller may lend it: it looks like a filled order, which opening a house empties.
pub fn lent() -> Row<Traded> {
    Row {
        order: 1,
        member: 1,
        side: Side::Sell,
        contract: put(200),
        price: 7,
        open: 3,
        filled: 5,
    }
}

// The number that a call is refused under, where it is refused.
pub fn refused_under<T: Copy>(answer: Result<T, Refusal>) -> Option<u8> {
    answer.err().map(|refusal| refusal.number())
}

// An order in a new house over these rows, and the reason and the place that its contract is refused with.
pub fn invalid<C: Contract>(
    rt: &impl Abort,
    rows: &mut [Row<C>],
    side: Side,
    contract: C,
    reason: u64,
    place: u64,
) -> Result<(), Fail> {
    let mut house = House::open(terms(), rows);
    match house.enter(1, side, contract, 0, 1) {
        Ok(_) => Err(Fail::new("it was entered")),
        Err(refusal) => {
            assert_eq!(rt; refusal.number(), 14);
            assert_eq!(rt; refusal.values(), (Some(reason), Some(place)));
            Ok(())
        }
    }
}
