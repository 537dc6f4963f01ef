// The tests of fills and weights at their limits, unused rows, and the largest figures that fit their types.
use instruments::bounds::Ceiling;
use instruments::options::Vanilla;
use instruments::worked::worked_ceiling;
use matching::appraisal::appraise;
use matching::book::Book;
use matching::proposals::{BadFill, Fill, FillFault, Weight, WeightFault, check_fills};
use matching::quotes::{Request, quote_beside};
use matching::rows::{Row, Side};
use matching::weights::{Weights, check_weights};
use matching::worked::{worked_fills, worked_orders, worked_weights};
use std::process::Abort;
use std::test::Fail;

fn fill(order: u64, lots: u64) -> Fill {
    Fill { order, lots }
}

fn weigh(price: u64, weight: u64) -> Weight {
    Weight { price, weight }
}

fn pass(rt: &impl Abort, fills: &[Fill]) {
    assert_eq!(rt; check_fills(fills), Ok(()));
}

fn fail_at(rt: &impl Abort, fills: &[Fill], index: usize) {
    assert_eq!(rt; check_fills(fills), Err(BadFill { index }));
}

#[test]
fn lists_of_fills(rt: HostRuntime) {
    let most = u64::MAX;
    pass(&rt, &[]);
    pass(&rt, &[fill(0, 1)]);
    fail_at(&rt, &[fill(0, 0)], 0);
    fail_at(&rt, &[fill(most, 0)], 0);
    pass(&rt, &[fill(0, 1), fill(1, most), fill(most, 1)]);
    fail_at(&rt, &[fill(1, 1), fill(1, 1)], 1);
    fail_at(&rt, &[fill(0, 1), fill(0, 1)], 1);
    fail_at(&rt, &[fill(1, 1), fill(3, 1), fill(2, 1), fill(4, 0)], 2);
    fail_at(&rt, &[fill(1, 1), fill(2, 1), fill(3, 0), fill(3, 1)], 2);
}

fn refused(rt: &impl Abort, fills: &[Fill], fault: FillFault) {
    let orders = worked_orders();
    let book = Book::of(&orders, worked_ceiling());
    assert_eq!(rt; book.check_fills(fills), Err(fault));
}

#[test]
fn fills_against_rows(rt: HostRuntime) {
    let orders = worked_orders();
    let book = Book::of(&orders, worked_ceiling());
    assert_eq!(rt; book.check_fills(&worked_fills()), Ok(()));
    refused(&rt, &[fill(0, 1)], FillFault::NotStanding(0));
    refused(
        &rt,
        &[fill(1, 2), fill(5, 1), fill(6, 1)],
        FillFault::NotStanding(5),
    );
    refused(
        &rt,
        &[fill(1, 1), fill(u64::MAX, 1)],
        FillFault::NotStanding(u64::MAX),
    );
    refused(&rt, &[fill(2, 2), fill(3, 2)], FillFault::AboveOpen(2));
    refused(
        &rt,
        &[fill(1, 1), fill(4, u64::MAX)],
        FillFault::AboveOpen(4),
    );
}

fn weighs(rt: &impl Abort, list: &[Weight], told: Result<u32, WeightFault>) {
    assert_eq!(rt; check_weights(list, worked_ceiling()), told);
    let sum = Weights::new(list, worked_ceiling()).map(|weights| weights.sum);
    assert_eq!(rt; sum, told);
}

#[test]
fn lists_of_weights(rt: HostRuntime) {
    weighs(&rt, &[], Err(WeightFault::Count(0)));
    weighs(&rt, &[weigh(200, 1); 512], Ok(512));
    weighs(&rt, &[weigh(201, 0); 513], Err(WeightFault::Count(513)));
    weighs(&rt, &[weigh(200, 1_000_000)], Ok(1_000_000));
    weighs(&rt, &[weigh(201, 1)], Err(WeightFault::Entry(0)));
    weighs(
        &rt,
        &[weigh(0, 0), weigh(0, 1_000_001)],
        Err(WeightFault::Entry(1)),
    );
    weighs(
        &rt,
        &[weigh(0, 0), weigh(u64::MAX, 0), weigh(0, u64::MAX)],
        Err(WeightFault::Entry(1)),
    );
    weighs(&rt, &[weigh(9, 0), weigh(9, 1), weigh(9, 0)], Ok(1));
    weighs(&rt, &[weigh(9, 0), weigh(0, 0)], Err(WeightFault::Sum(2)));
    weighs(&rt, &[weigh(9, 999_999), weigh(0, 1)], Ok(1_000_000));
    weighs(
        &rt,
        &[weigh(9, 1_000_000), weigh(0, 1)],
        Err(WeightFault::Sum(2)),
    );
    weighs(
        &rt,
        &[weigh(200, 1_000_000); 512],
        Err(WeightFault::Sum(512)),
    );
}

// An unused row, with a number that stands in another row and with figures that would tell.
fn unused() -> Row<Vanilla> {
    Row {
        order: 1,
        member: 1,
        side: Side::Sell,
        contract: Vanilla::Put { strike: 200 },
        price: u32::MAX,
        open: 0,
        filled: 0,
    }
}

#[test]
fn unused_rows(rt: HostRuntime) -> Result<(), Fail> {
    let [a, b, c, d] = worked_orders();
    let rows = [unused(), a, unused(), b, c, d, unused()];
    let top = worked_ceiling();
    let told = appraise(&rows, &worked_fills(), &worked_weights(), top)?;
    assert_eq!(rt;
        [told.cash, told.reserve, told.net, told.gap],
        [44, 40, 4, 0]
    );
    Ok(())
}

#[test]
fn unused_rows_hold_nothing(rt: HostRuntime) {
    let one = [unused()];
    let book = Book::of(&one, worked_ceiling());
    assert_eq!(rt;
        book.check_fills(&[fill(1, 1)]),
        Err(FillFault::NotStanding(1))
    );
    assert_eq!(rt; book.held_by(1), 0);
    assert_eq!(rt; book.exposure_at(0), 0);
}

// Every figure as large as its type lets it be. All rows have one number, and each is given the lots.
fn largest(rt: &impl Abort, rows: &[Row<Vanilla>], top: Ceiling) -> Result<(), Fail> {
    let fills = [fill(1, u64::MAX)];
    let told = appraise(rows, &fills, &[weigh(100_000, 1_000_000)], top)?;
    assert_eq!(rt; told.cash, 20_282_409_598_929_303_939_978_094_444_800);
    assert_eq!(rt; told.reserve, 472_231_925_920_481_651_698_786_560);
    assert_eq!(rt; [told.worst, told.weights], [100_000, 1_000_000]);
    assert_eq!(rt;
        told.gap,
        -20_281_937_367_003_311_403_509_565_358_080_000_000
    );
    assert_eq!(rt; Book::of(rows, top).exposure_at(100_000), 1_677_679_223_040);
    Ok(())
}

fn largest_quote(rt: &impl Abort, rows: &[Row<Vanilla>], top: Ceiling) -> Result<(), Fail> {
    let call = Vanilla::Call { strike: 1 };
    let fills = [fill(1, u64::MAX)];
    let list = [weigh(100_000, 1_000_000)];
    let ask = quote_beside(rows, &fills, &list, top, call, Request::Ask, u64::MAX)?;
    assert_eq!(rt; ask.premium, -20_281_935_522_347_422_831_444_943_709_855);
    assert_eq!(rt;
        ask.gap,
        -20_281_937_367_003_311_403_509_565_358_080_000_000
    );
    assert_eq!(rt; ask.reserve, 474_076_581_881_108_533_150_734_945);
    Ok(())
}

#[test]
fn largest_figures(rt: HostRuntime) -> Result<(), Fail> {
    let row = Row {
        order: 1,
        member: 1,
        side: Side::Buy,
        contract: Vanilla::Call { strike: 1 },
        price: u32::MAX,
        open: u16::MAX,
        filled: u16::MAX,
    };
    let top = Ceiling { value: 100_000 };
    largest(&rt, &[row; 300], top)?;
    largest_quote(&rt, &[row; 300], top)
}
