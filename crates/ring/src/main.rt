// Runs the first worked book in a house of options and spreads, and prints its report.
#![tactic(auto)]

ghost use Rattle.std.specs.Prelude.{◌≤◌, length, IfOk};

use anyhow::anyhow;
use books::refusals::Refusal;
use books::terms::Terms;
use house::state::House;
use instruments::bounds::Ceiling;
use instruments::choices::{Either, Traded};
use instruments::kind::Contract;
use instruments::options::Vanilla;
use matching::proposals::{Fill, Weight};
use matching::rows::{HOUSE_ROWS, Row, Side};
use matching::worked::{worked_fills, worked_weights};
use report::writing::LONGEST_REPORT;
use std::io::Write;

// Clears a proposal and publishes its report. The page has room for every report, and the token is the
// one that the clearing just made: so it is never handed back, and none is left when this returns.
fn clear_onto<C: Contract>(
    house: &mut House<'_, C>,
    fills: &[Fill],
    weights: &[Weight],
    page: &mut [u8],
) -> Result<usize, Refusal>
    requires { LONGEST_REPORT ≤ length page.old }
    ensures { IfOk result (λ n. n ≤ LONGEST_REPORT) }
{
    let (_, token) = house.clear(fills, weights)?;
    match house.publish(token, page) {
        Ok(length) => Ok(length),
        Err((_, _)) => unreachable(),
    }
}

fn deposit_all(house: &mut House<'_, Traded>) -> Result<(), Refusal> {
    house.deposit(1, 9)?;
    house.deposit(2, 42)?;
    house.deposit(3, 50)?;
    house.deposit(4, 110)
}

fn call(strike: u64) -> Traded {
    Either::Left(Vanilla::Call { strike })
}

fn put(strike: u64) -> Traded {
    Either::Left(Vanilla::Put { strike })
}

fn enter_all(house: &mut House<'_, Traded>) -> Result<(), Refusal> {
    house.enter(1, Side::Buy, call(110), 9, 1)?;
    house.enter(2, Side::Buy, put(150), 42, 1)?;
    house.enter(3, Side::Sell, call(150), 1, 1)?;
    house.enter(4, Side::Sell, put(110), 6, 1)?;
    Ok(())
}

fn run_book(house: &mut House<'_, Traded>, page: &mut [u8]) -> Result<usize, Refusal>
    requires { LONGEST_REPORT ≤ length page.old }
    ensures { IfOk result (λ n. n ≤ LONGEST_REPORT) }
{
    deposit_all(house)?;
    enter_all(house)?;
    clear_onto(house, &worked_fills(), &worked_weights(), page)
}

fn report_of_book(page: &mut [u8]) -> Result<usize, Refusal>
    requires { LONGEST_REPORT ≤ length page.old }
    ensures { IfOk result (λ n. n ≤ LONGEST_REPORT) }
{
    let terms = Terms {
        house: 1,
        ceiling: Ceiling { value: 200 },
        gap: 0,
    };
    let mut rows = [Row::unused(call(1)); HOUSE_ROWS];
    let mut house = House::open(terms, &mut rows);
    run_book(&mut house, page)
}

// A refusal as an error of the program.
fn refused(refusal: Refusal) -> anyhow::Error {
    anyhow!("refused under {}: {refusal}", refusal.number())
}

fn print_report(rt: &HostRuntime) -> anyhow::Result<()> {
    let mut page = [0u8; LONGEST_REPORT];
    let length = report_of_book(&mut page).map_err(refused)?;
    rt.stdout().write_all(&page[0..length])?;
    Ok(())
}

fn main(rt: HostRuntime) -> anyhow::Result<()> {
    print_report(&rt)
}
