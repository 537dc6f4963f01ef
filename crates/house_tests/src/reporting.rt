// A report that is owed: pages that are too short, and a settlement that comes too early.
ghost use Rattle.std.specs.Prelude.{◌≤◌, length};

use crate::clearing::{all_filled, allowing, enter_first, first_weights};
use crate::setup::{lent, refused_under};
use books::refusals::Refusal;
use house::state::House;
use instruments::kind::Contract;
use matching::proposals::{Fill, Weight};
use std::test::Fail;

// Clears a proposal and publishes its report on the first page, or else on the second, which has room for
// every report. Answers the number that the first page is refused under.
fn clear_on_second<C: Contract>(
    house: &mut House<'_, C>,
    fills: &[Fill],
    weights: &[Weight],
    first: &mut [u8],
    second: &mut [u8],
) -> Result<Option<u8>, Refusal>
    requires { 285 ≤ length second.old }
{
    let (_, token) = house.clear(fills, weights)?;
    match house.publish(token, first) {
        Ok(_) => Ok(None),
        Err((back, refusal)) => match house.publish(back, second) {
            Ok(_) => Ok(Some(refusal.number())),
            Err((_, _)) => unreachable(),
        },
    }
}

// Clears a proposal, asks to settle at 0 while its report is owed, and publishes it. Answers the number that
// the settlement is refused under.
fn settle_owing<C: Contract>(
    house: &mut House<'_, C>,
    fills: &[Fill],
    weights: &[Weight],
    page: &mut [u8],
) -> Result<Option<u8>, Refusal>
    requires { 285 ≤ length page.old }
{
    let (_, token) = house.clear(fills, weights)?;
    let number = refused_under(house.settle(0));
    match house.publish(token, page) {
        Ok(_) => Ok(number),
        Err((_, _)) => unreachable(),
    }
}

// The report has 53 bytes, so a page of 52 is left as it is, and the token handed back is good for another.
#[test]
fn page_of_52(rt: HostRuntime) -> Result<(), Fail> {
    let mut short = [7u8; 52];
    let mut page = [7u8; 285];
    let mut rows = [lent(); 4];
    let mut house = House::open(allowing(0), &mut rows);
    enter_first(&mut house)?;
    let number = clear_on_second(
        &mut house,
        &all_filled(),
        &first_weights(),
        &mut short,
        &mut page,
    )?;
    assert_eq!(rt; number, Some(52));
    assert_eq!(rt; house.house().report_owed, false);
    assert_eq!(rt; short, [7u8; 52]);
    assert_eq!(rt; [page[0], page[52], page[53]], [99, 10, 7]);
    Ok(())
}

#[test]
fn page_of_53(rt: HostRuntime) -> Result<(), Fail> {
    let mut just = [7u8; 53];
    let mut page = [7u8; 285];
    let mut rows = [lent(); 4];
    let mut house = House::open(allowing(0), &mut rows);
    enter_first(&mut house)?;
    let number = clear_on_second(
        &mut house,
        &all_filled(),
        &first_weights(),
        &mut just,
        &mut page,
    )?;
    assert_eq!(rt; number, None);
    assert_eq!(rt; house.house().report_owed, false);
    assert_eq!(rt; [just[0], just[51], just[52]], [99, 48, 10]);
    assert_eq!(rt; [page[0], page[284]], [7, 7]);
    Ok(())
}

#[test]
fn settled_after_the_report(rt: HostRuntime) -> Result<(), Fail> {
    let mut page = [0u8; 285];
    let mut rows = [lent(); 4];
    let mut house = House::open(allowing(0), &mut rows);
    enter_first(&mut house)?;
    let number = settle_owing(&mut house, &all_filled(), &first_weights(), &mut page)?;
    assert_eq!(rt; number, Some(41));
    assert_eq!(rt; house.account(2)?.cash, 0);
    house.settle(0)?;
    assert_eq!(rt; house.account(2)?.cash, 150);
    Ok(())
}
