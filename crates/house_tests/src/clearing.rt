// Clearing and publishing, with the worked books.
ghost use Rattle.std.specs.Prelude.{◌≤◌, length};

use crate::setup::{Traded, call, lent, put, refused_under};
use books::answers::{Balance, Standing};
use books::refusals::Refusal;
use books::terms::Terms;
use house::state::House;
use instruments::bounds::Ceiling;
use instruments::kind::Contract;
use matching::proposals::{Fill, Weight};
use matching::rows::Side;
use std::process::Abort;
use std::test::Fail;

// Clears a proposal and publishes its report. The page has room for every report, and the token is the
// one that the clearing just made: so it is never handed back.
pub fn clear_onto<C: Contract>(
    house: &mut House<'_, C>,
    fills: &[Fill],
    weights: &[Weight],
    page: &mut [u8],
) -> Result<usize, Refusal>
    requires { 285 ≤ length page.old }
{
    let (_, token) = house.clear(fills, weights)?;
    match house.publish(token, page) {
        Ok(length) => Ok(length),
        Err((_, _)) => unreachable(),
    }
}

pub fn fill(order: u64, lots: u64) -> Fill {
    Fill { order, lots }
}

pub fn weigh(price: u64, weight: u64) -> Weight {
    Weight { price, weight }
}

pub fn all_filled() -> [Fill; 4] {
    [fill(1, 1), fill(2, 1), fill(3, 1), fill(4, 1)]
}

pub fn first_weights() -> [Weight; 3] {
    [weigh(90, 3), weigh(110, 6), weigh(170, 1)]
}

pub fn allowing(gap: u8) -> Terms {
    Terms {
        house: 1,
        ceiling: Ceiling { value: 200 },
        gap: u32::from(gap),
    }
}

fn deposit_all(house: &mut House<'_, Traded>) -> Result<(), Refusal> {
    house.deposit(1, 9)?;
    house.deposit(2, 42)?;
    house.deposit(3, 50)?;
    house.deposit(4, 110)
}

pub fn enter_first(house: &mut House<'_, Traded>) -> Result<(), Refusal> {
    deposit_all(house)?;
    house.enter(1, Side::Buy, call(110), 9, 1)?;
    house.enter(2, Side::Buy, put(150), 42, 1)?;
    house.enter(3, Side::Sell, call(150), 1, 1)?;
    house.enter(4, Side::Sell, put(110), 6, 1)?;
    Ok(())
}

fn has(
    rt: &impl Abort,
    house: &House<'_, Traded>,
    member: u64,
    cash: i128,
    held: i64,
) -> Result<(), Fail> {
    assert_eq!(rt; house.account(member)?, Balance { cash, held });
    Ok(())
}

// What the clearing of the first book leaves.
fn first_is_booked(rt: &impl Abort, house: &House<'_, Traded>) -> Result<(), Fail> {
    has(rt, house, 1, 0, 0)?;
    has(rt, house, 2, 0, 0)?;
    has(rt, house, 3, 51, 50)?;
    has(rt, house, 4, 116, 110)?;
    assert_eq!(rt; house.order(4), Some((0, 1)));
    assert_eq!(rt; [house.exposure(0)?, house.exposure(200)?], [40, 40]);
    let standing = Standing {
        cash: 44,
        reserve: 40,
        clearings: 1,
        report_owed: false,
    };
    assert_eq!(rt; house.house(), standing);
    Ok(())
}

#[test]
fn first_book(rt: HostRuntime) -> Result<(), Fail> {
    let mut page = [7u8; 285];
    let mut rows = [lent(); 4];
    let mut house = House::open(allowing(0), &mut rows);
    enter_first(&mut house)?;
    let length = clear_onto(&mut house, &all_filled(), &first_weights(), &mut page)?;
    assert_eq!(rt; length, 53);
    first_is_booked(&rt, &house)?;
    let text = b"clearing=1\nnet=4\nreserve=40\nworst=0\ngap=0\nweights=10\n";
    assert_eq!(rt; &page[0..53], &text[0..53]);
    assert_eq!(rt; [page[53], page[284]], [7, 7]);
    Ok(())
}

// The first book, then settled at 0.
#[test]
fn first_book_to_the_end(rt: HostRuntime) -> Result<(), Fail> {
    let mut page = [0u8; 285];
    let mut rows = [lent(); 4];
    let mut house = House::open(allowing(0), &mut rows);
    enter_first(&mut house)?;
    clear_onto(&mut house, &all_filled(), &first_weights(), &mut page)?;
    assert_eq!(rt; refused_under(house.take(5)), Some(49));
    assert_eq!(rt; refused_under(house.cancel(4, 4)), Some(44));
    assert_eq!(rt; refused_under(house.withdraw(4, 7)), Some(42));
    house.settle(0)?;
    has(&rt, &house, 1, 0, 0)?;
    has(&rt, &house, 2, 150, 0)?;
    has(&rt, &house, 3, 51, 0)?;
    has(&rt, &house, 4, 6, 0)?;
    assert_eq!(rt; [house.house().cash, house.house().reserve], [4, 0]);
    Ok(())
}

// A proposal on the first book, and the number that it is refused under.
fn proposes(
    rt: &impl Abort,
    gap: u8,
    fills: &[Fill],
    weights: &[Weight],
    number: Option<u8>,
) -> Result<(), Fail> {
    let mut page = [0u8; 285];
    let mut rows = [lent(); 4];
    let mut house = House::open(allowing(gap), &mut rows);
    enter_first(&mut house)?;
    assert_eq!(rt;
        refused_under(clear_onto(&mut house, fills, weights, &mut page)),
        number
    );
    assert_eq!(rt;
        house.house().clearings,
        if number.is_none() { 1 } else { 0 }
    );
    Ok(())
}

#[test]
fn gaps_and_nets(rt: HostRuntime) -> Result<(), Fail> {
    proposes(&rt, 8, &all_filled(), &[weigh(100, 1)], Some(48))?;
    proposes(&rt, 9, &all_filled(), &[weigh(100, 1)], None)?;
    proposes(&rt, 0, &[], &first_weights(), Some(48))?;
    proposes(&rt, 3, &[], &first_weights(), Some(48))?;
    proposes(&rt, 4, &[], &first_weights(), None)?;
    proposes(&rt, 255, &[fill(1, 1)], &first_weights(), Some(47))
}

// A proposal that fails several tests is told the first.
#[test]
fn refused_proposals(rt: HostRuntime) -> Result<(), Fail> {
    proposes(&rt, 0, &[fill(9, 0)], &[], Some(18))?;
    proposes(&rt, 0, &[fill(9, 1), fill(9, 1)], &[], Some(18))?;
    proposes(&rt, 0, &[fill(9, 1)], &[], Some(19))?;
    proposes(&rt, 0, &[fill(9, 1)], &[weigh(201, 1)], Some(19))?;
    proposes(&rt, 0, &[fill(0, 1)], &first_weights(), Some(44))?;
    proposes(
        &rt,
        0,
        &[fill(1, 2), fill(5, 1)],
        &first_weights(),
        Some(44),
    )?;
    proposes(&rt, 0, &[fill(1, 2)], &first_weights(), Some(45))
}

fn enter_second(house: &mut House<'_, Traded>) -> Result<(), Refusal> {
    house.deposit(1, 15)?;
    house.deposit(2, 280)?;
    house.enter(1, Side::Buy, call(160), 14, 1)?;
    house.enter(1, Side::Buy, put(80), 1, 1)?;
    house.enter(2, Side::Sell, call(80), 74, 1)?;
    house.enter(2, Side::Sell, put(160), 19, 1)?;
    Ok(())
}

// The book with a negative reserve, where the house has so much, and the number that its clearing is
// refused under.
fn clears_second(rt: &impl Abort, funds: u64, number: Option<u8>) -> Result<(), Fail> {
    let mut page = [0u8; 285];
    let mut rows = [lent(); 4];
    let mut house = House::open(allowing(0), &mut rows);
    house.fund(funds)?;
    enter_second(&mut house)?;
    let list = [weigh(128, 1), weigh(132, 26), weigh(200, 13)];
    let answer = clear_onto(&mut house, &all_filled(), &list, &mut page);
    assert_eq!(rt; refused_under(answer), number);
    let reserve = if number.is_none() { -80 } else { 0 };
    assert_eq!(rt; house.house().reserve, reserve);
    Ok(())
}

#[test]
fn second_book(rt: HostRuntime) -> Result<(), Fail> {
    clears_second(&rt, 77, Some(49))?;
    clears_second(&rt, 78, None)
}
