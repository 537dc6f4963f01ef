// Making a whole list of calls.
ghost use Rattle.house.specs.View.{view};
ghost use Rattle.replay.specs.Desk.{InHand};
ghost use Rattle.replay.specs.Replay.{Replayed, Untouched};
ghost use Rattle.std.specs.Prelude.{IfOk};

use crate::calls::{Answer, Call};
use crate::keeper::Keeper;
use books::terms::Terms;
use house::state::House;
use house::token::ReportToken;
use instruments::kind::Contract;
use matching::rows::Row;
use report::writing::LONGEST_REPORT;
use std::alloc::{AllocError, Global};

// Publishes the report that is still owed, on a page that is long enough for every report, so that its
// token is spent.
fn finish<C: Contract>(house: &mut House<'_, C>, token: Option<ReportToken>)
    requires { InHand (view house.old) token }
{
    let Some(token) = token else {
        return;
    };
    let mut page = [0u8; LONGEST_REPORT];
    match house.publish(token, &mut page) {
        Ok(_) => {}
        Err((_, _)) => unreachable(),
    }
}

// Opens a house over the rows, makes the calls in their order, and answers what each of them answered.
// Reports go onto the page, and a publish may bring any of the other tokens. The house is let go at the
// end; a report that is owed then still is published on a page of its own. The answers' memory is asked
// for first: where there is none, no house is opened.
pub fn replay<C: Contract>(
    heap: Global,
    terms: Terms,
    rows: &mut [Row<C>],
    calls: &[Call<'_, C>],
    others: &mut [Option<ReportToken>],
    page: &mut [u8],
) -> Result<Vec<Answer>, AllocError>
    ensures replayed { IfOk result (λ answers. Replayed C.Contract.meaning terms.house terms.ceiling.value terms.gap calls.now answers.items rows.old others.old others.new page.old page.new) }
    ensures untouched { Untouched result rows.old rows.new others.old others.new page.old page.new }
{
    let mut answers = Vec::with_capacity(heap, calls.len())?;
    let mut keeper = Keeper {
        house: House::open(terms, rows),
        own: None,
    };
    for call in calls {
        let answer = keeper.make(others, page, call);
        answers.push_reserved(answer);
    }
    let Keeper { mut house, own } = keeper;
    finish(&mut house, own);
    Ok(answers)
}
