// A full house: 256 rows with contracts of 8 breakpoints, every order filled, and 512 weights. The expected
// figures come from another program, which goes over every price.
use instruments::pairs::Pair;
use instruments::spreads::Spread;
use instruments::worked::worked_ceiling;
use matching::appraisal::appraise;
use matching::book::Book;
use matching::proposals::{Fill, Weight, check_fills};
use matching::quotes::{Request, quote_beside};
use matching::rows::{Row, Side};
use matching::weights::bound_of;
use std::array;
use std::process::Abort;
use std::test::Fail;

type Two = Pair<Spread, Spread>;

type Eight = Pair<Two, Two>;

fn eight(i: u64) -> Eight {
    let a = i % 100;
    let b = 100 + i % 90;
    let first = Spread::Rising {
        low: a,
        high: a + 30,
    };
    let second = Spread::Falling {
        low: a + 5,
        high: a + 60,
    };
    let third = Spread::Rising { low: b, high: 200 };
    let fourth = Spread::Falling {
        low: 0,
        high: b + 1,
    };
    Pair {
        first: Pair { first, second },
        second: Pair {
            first: third,
            second: fourth,
        },
    }
}

// A row past the house's own: were it read, every figure would tell.
fn garbage() -> Row<Eight> {
    Row {
        order: 1,
        member: 1,
        side: Side::Buy,
        contract: eight(0),
        price: u32::MAX,
        open: u16::MAX,
        filled: u16::MAX,
    }
}

fn row(i: u16) -> Row<Eight> {
    let n = u32::from(i);
    Row {
        order: n + 1,
        member: (i % 64 + 1) as u8,
        side: if i % 2 == 0 { Side::Buy } else { Side::Sell },
        contract: eight(u64::from(i)),
        price: 50 + n * 7 % 60,
        open: 1 + i % 9,
        filled: i % 4,
    }
}

fn rows() -> [Row<Eight>; 260] {
    array::from_fn(|i| if i < 256 { row(i as u16) } else { garbage() })
}

fn fills() -> [Fill; 256] {
    array::from_fn(|i| Fill {
        order: i as u64 + 1,
        lots: 1 + i as u64 * 5 % (1 + i as u64 % 9),
    })
}

fn weights() -> [Weight; 512] {
    array::from_fn(|j| Weight {
        price: j as u64 * 37 % 201,
        weight: j as u64 % 11,
    })
}

fn judged(
    rt: &impl Abort,
    rows: &[Row<Eight>],
    fills: &[Fill],
    list: &[Weight],
) -> Result<(), Fail> {
    let top = worked_ceiling();
    assert!(rt; check_fills(fills).is_ok());
    assert!(rt; Book::of(rows, top).check_fills(fills).is_ok());
    let told = appraise(rows, fills, list, top)?;
    let money = [told.cash, told.reserve, told.net, told.gap];
    assert_eq!(rt; money, [-698, -317, -381, 44_091_632]);
    assert_eq!(rt; [told.worst, told.weights], [176, 2545]);
    assert_eq!(rt; bound_of(rows, list, top)?, 43_121_987);
    Ok(())
}

fn summed(rt: &impl Abort, rows: &[Row<Eight>], fills: &[Fill]) {
    let book = Book::of(rows, worked_ceiling());
    for (member, held) in [(1, 820), (2, 5148), (64, 6292), (65, 0)] {
        assert_eq!(rt; book.held_by(member), held);
    }
    for (price, exposed) in [(0, -25_590), (77, -14_850), (200, -11_018), (201, 0)] {
        assert_eq!(rt; book.exposure_at(price), exposed);
    }
    for (price, owed) in [(0, -1596), (77, -1156), (200, -406), (201, 0)] {
        assert_eq!(rt; book.owed_at(fills, price), owed);
    }
}

// A thousand lots of one more contract.
fn quoted(
    rt: &impl Abort,
    rows: &[Row<Eight>],
    fills: &[Fill],
    list: &[Weight],
) -> Result<(), Fail> {
    let top = worked_ceiling();
    let ask = quote_beside(rows, fills, list, top, eight(3), Request::Ask, 1000)?;
    assert_eq!(rt;
        [ask.premium, ask.reserve, ask.gap],
        [158_102, 157_404, 223_064_577]
    );
    assert_eq!(rt; ask.worst, 0);
    let bid = quote_beside(rows, fills, list, top, eight(3), Request::Bid, 1000)?;
    assert_eq!(rt;
        [bid.premium, bid.reserve, bid.gap],
        [30_995, -31_693, 186_666_712]
    );
    assert_eq!(rt; bid.worst, 104);
    Ok(())
}

#[test]
fn full_house(rt: HostRuntime) -> Result<(), Fail> {
    judged(&rt, &rows(), &fills(), &weights())
}

#[test]
fn full_sums(rt: HostRuntime) {
    summed(&rt, &rows(), &fills());
}

#[test]
fn full_quotes(rt: HostRuntime) -> Result<(), Fail> {
    quoted(&rt, &rows(), &fills(), &weights())
}
