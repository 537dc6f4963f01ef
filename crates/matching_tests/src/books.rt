// The worked books, under the ceiling 200, with figures worked out by hand.
use instruments::options::Vanilla;
use instruments::worked::worked_ceiling;
use matching::appraisal::{Appraisal, appraise};
use matching::book::Book;
use matching::proposals::{Fill, Weight};
use matching::quotes::{Asked, Quote, Request, quote_beside};
use matching::rows::{Row, Side};
use matching::weights::{Weights, bound_of, value_of};
use matching::worked::{worked_fills, worked_orders, worked_weights};
use std::process::Abort;
use std::test::Fail;

fn call(strike: u64) -> Vanilla {
    Vanilla::Call { strike }
}

fn put(strike: u64) -> Vanilla {
    Vanilla::Put { strike }
}

fn one_lot(order: u64) -> Fill {
    Fill { order, lots: 1 }
}

fn weigh(price: u64, weight: u64) -> Weight {
    Weight { price, weight }
}

fn order(number: u32, side: Side, contract: Vanilla, price: u32) -> Row<Vanilla> {
    Row {
        order: number,
        member: 1,
        side,
        contract,
        price,
        open: 1,
        filled: 0,
    }
}

// Cash, reserve, net and gap; then the worst price and the sum of the weights.
fn figures(money: [i128; 4], worst: u32, weights: u32) -> Appraisal {
    Appraisal {
        cash: money[0],
        reserve: money[1],
        worst,
        net: money[2],
        gap: money[3],
        weights,
    }
}

// Premium, reserve and gap; then the worst price and the sum of the weights.
fn quotation(money: [i128; 3], worst: u32, weights: u32) -> Quote {
    Quote {
        premium: money[0],
        reserve: money[1],
        worst,
        gap: money[2],
        weights,
    }
}

fn judges(rt: &impl Abort, fills: &[Fill], list: &[Weight], told: Appraisal) -> Result<(), Fail> {
    let orders = worked_orders();
    assert_eq!(rt; appraise(&orders, fills, list, worked_ceiling())?, told);
    let book = Book::of(&orders, worked_ceiling());
    let weights = Weights::new(list, worked_ceiling())?;
    assert_eq!(rt; book.appraise(fills, &weights), told);
    Ok(())
}

#[test]
fn first_book(rt: HostRuntime) -> Result<(), Fail> {
    let all = worked_fills();
    let list = worked_weights();
    judges(&rt, &all, &list, figures([44, 40, 4, 0], 0, 10))?;
    judges(&rt, &all, &[weigh(100, 1)], figures([44, 40, 4, 9], 0, 1))?;
    judges(&rt, &[], &list, figures([0, 0, 0, 40], 0, 10))?;
    judges(
        &rt,
        &[one_lot(1)],
        &list,
        figures([9, 90, -81, 850], 200, 10),
    )?;
    judges(
        &rt,
        &[one_lot(1), one_lot(3)],
        &list,
        figures([8, 40, -32, 360], 150, 10),
    )?;
    judges(
        &rt,
        &[one_lot(3), one_lot(4)],
        &list,
        figures([-7, 0, -7, 110], 110, 10),
    )
}

#[test]
fn second_book(rt: HostRuntime) -> Result<(), Fail> {
    let orders = [
        order(1, Side::Buy, call(160), 14),
        order(2, Side::Buy, put(80), 1),
        order(3, Side::Sell, call(80), 74),
        order(4, Side::Sell, put(160), 19),
    ];
    let list = [weigh(128, 1), weigh(132, 26), weigh(200, 13)];
    let told = appraise(&orders, &worked_fills(), &list, worked_ceiling())?;
    assert_eq!(rt; told, figures([-78, -80, 2, 0], 0, 40));
    assert_eq!(rt; bound_of(&orders, &list, worked_ceiling())?, 80);
    Ok(())
}

// What the parts of the first book's test answer.
#[test]
fn parts_of_the_test(rt: HostRuntime) -> Result<(), Fail> {
    let ceiling = worked_ceiling();
    let orders = worked_orders();
    let book = Book::of(&orders, ceiling);
    let list = worked_weights();
    assert_eq!(rt; bound_of(&orders, &list, ceiling)?, 40);
    assert_eq!(rt; bound_of(&orders, &[weigh(100, 1)], ceiling)?, 13);
    assert_eq!(rt; value_of(&list, put(150), ceiling)?, 420);
    for price in [0, 110, 130, 150, 200] {
        assert_eq!(rt; book.owed_at(&worked_fills(), price), 40);
        assert_eq!(rt; book.exposure_at(price), 0);
    }
    for (member, held) in [(0, 0), (1, 9), (2, 42), (3, 50), (4, 110), (5, 0)] {
        assert_eq!(rt; book.held_by(member), held);
    }
    Ok(())
}

fn quotes(
    rt: &impl Abort,
    fills: &[Fill],
    contract: Vanilla,
    request: Request,
    lots: u64,
    told: Quote,
) -> Result<(), Fail> {
    let orders = worked_orders();
    let list = worked_weights();
    let top = worked_ceiling();
    assert_eq!(rt;
        quote_beside(&orders, fills, &list, top, contract, request, lots)?,
        told
    );
    let asked = Asked {
        contract,
        request,
        lots,
    };
    let weights = Weights::new(&list, top)?;
    assert_eq!(rt; Book::of(&orders, top).quote(fills, &weights, asked), told);
    Ok(())
}

#[test]
fn quotations(rt: HostRuntime) -> Result<(), Fail> {
    let none: [Row<Vanilla>; 0] = [];
    let top = worked_ceiling();
    let ask = quote_beside(
        &none,
        &[],
        &[weigh(200, 1)],
        top,
        call(110),
        Request::Ask,
        1,
    )?;
    assert_eq!(rt; ask, quotation([90, 90, 0], 200, 1));
    let bid = quote_beside(&none, &[], &[weigh(0, 1)], top, call(110), Request::Bid, 1)?;
    assert_eq!(rt; bid, quotation([0, 0, 0], 0, 1));
    let all = worked_fills();
    quotes(
        &rt,
        &all,
        call(110),
        Request::Ask,
        2,
        quotation([176, 220, 1680], 200, 10),
    )?;
    quotes(
        &rt,
        &all,
        put(110),
        Request::Bid,
        2,
        quotation([4, 40, 120], 110, 10),
    )?;
    quotes(
        &rt,
        &[],
        call(150),
        Request::Bid,
        3,
        quotation([0, 0, 100], 0, 10),
    )
}
