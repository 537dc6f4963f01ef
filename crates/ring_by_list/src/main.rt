// Makes the calls of the first worked book on a house of options and spreads, and prints its report.
#![tactic(auto)]

use anyhow::anyhow;
use books::refusals::Refusal;
use house::token::ReportToken;
use instruments::choices::{Either, Traded};
use instruments::options::Vanilla;
use matching::proposals::{Fill, Weight};
use matching::rows::{HOUSE_ROWS, Row, Side};
use matching::worked::{worked_fills, worked_weights};
use replay::calls::{Answer, Call};
use replay::replaying::replay;
use report::writing::LONGEST_REPORT;
use std::alloc::Global;
use std::io::Write;
use trials::worked::worked_terms;

// A refusal as an error of the program.
fn refused(refusal: Refusal) -> anyhow::Error {
    anyhow!("refused under {}: {refusal}", refusal.number())
}

fn deposit<'a>(member: u64, amount: u64) -> Call<'a, Traded> {
    Call::Deposit { member, amount }
}

// An order of one lot.
fn enter<'a>(member: u64, side: Side, option: Vanilla, price: u64) -> Call<'a, Traded> {
    Call::Enter {
        member,
        side,
        contract: Either::Left(option),
        price,
        lots: 1,
    }
}

// What a call was refused for, if it was.
fn refusal_of(answer: Answer) -> Option<Refusal> {
    match answer {
        Answer::Done(told) => told.err(),
        Answer::Entered(told) => told.err(),
        Answer::Cleared(told) => told.err(),
        Answer::Published(told) => told.err(),
        Answer::Account(told) => told.err(),
        Answer::NoToken | Answer::House(_) => None,
    }
}

// The length of the report that was published last; an error where a call was refused.
fn published(answers: &[Answer]) -> anyhow::Result<usize> {
    let mut length = 0;
    for answer in answers {
        if let Some(refusal) = refusal_of(*answer) {
            return Err(refused(refusal));
        }
        if let Answer::Published(Ok(bytes)) = *answer {
            length = bytes;
        }
    }
    Ok(length)
}

// Makes the calls on a new house, and answers the length of the report on the page.
fn report_of(heap: Global, calls: &[Call<'_, Traded>], page: &mut [u8]) -> anyhow::Result<usize> {
    let mut rows = [Row::unused(Either::Left(Vanilla::Call { strike: 1 })); HOUSE_ROWS];
    let mut others: [Option<ReportToken>; 0] = [];
    let answers = replay(heap, worked_terms(), &mut rows, calls, &mut others, page)?;
    published(answers.as_slice())
}

// The first worked book, from its first deposit to its report.
fn first_book<'a>(fills: &'a [Fill], weights: &'a [Weight]) -> [Call<'a, Traded>; 10] {
    [
        deposit(1, 9),
        deposit(2, 42),
        deposit(3, 50),
        deposit(4, 110),
        enter(1, Side::Buy, Vanilla::Call { strike: 110 }, 9),
        enter(2, Side::Buy, Vanilla::Put { strike: 150 }, 42),
        enter(3, Side::Sell, Vanilla::Call { strike: 150 }, 1),
        enter(4, Side::Sell, Vanilla::Put { strike: 110 }, 6),
        Call::Clear { fills, weights },
        Call::Publish,
    ]
}

fn print_report<'a>(
    rt: &HostRuntime,
    fills: &'a [Fill],
    weights: &'a [Weight],
) -> anyhow::Result<()> {
    let calls = first_book(fills, weights);
    let mut page = [0u8; LONGEST_REPORT];
    let length = report_of(rt.alloc(), &calls, &mut page)?;
    match page.get(0..length) {
        Some(text) => rt.stdout().write_all(text)?,
        None => return Err(anyhow!("the report is longer than the page")),
    }
    Ok(())
}

fn main(rt: HostRuntime) -> anyhow::Result<()> {
    print_report(&rt, &worked_fills(), &worked_weights())
}
