// Clearing a proposal.
ghost use Rattle.std.specs.Prelude.{◌≡◌, Ok, Err, OnOk, IfOk, IfErr};
ghost use Rattle.books.specs.Clearing.{clear_answer, clear_after, clear_tested};
ghost use Rattle.books.specs.Refusals.{tested};
ghost use Rattle.house.specs.Judging.{admission, figure_tests, cleared_as};
ghost use Rattle.house.specs.View.{view, told_clearing, TokenOf, Stated};
ghost use Rattle.matching.specs.Appraisal.{WithinType};

use super::House;
use crate::token::ReportToken;
use books::answers::Cleared;
use books::members::MAX_NUMBER;
use books::refusals::Refusal;
use instruments::kind::Contract;
use matching::appraisal::Appraisal;
use matching::proposals::{Fill, Weight, check_fills};
use matching::weights::Weights;

impl<'a, C: Contract> House<'a, C> {
    // The tests of a proposal's figures: its net, its gap, the house's cash after it, and its number.
    fn judge_figures(&self, figures: Appraisal) -> Result<(), Refusal>
        requires { WithinType figures }
        ensures { result ≡ tested (figure_tests (view self.now) figures) tt }
    {
        if figures.net < 0 {
            return Err(Refusal::NetBelowZero);
        }
        if self.books.gap_too_large(figures.gap, figures.weights) {
            return Err(Refusal::GapTooLarge);
        }
        if self.books.runs_short(figures.cash) {
            return Err(Refusal::HouseShort);
        }
        if self.books.latest.clearing >= MAX_NUMBER {
            return Err(Refusal::NumbersUsedUp);
        }
        Ok(())
    }

    // The tests of the proposal itself, and of the house's state. They answer the weights that have passed.
    fn admit<'w>(&self, fills: &[Fill], weights: &'w [Weight]) -> Result<Weights<'w>, Refusal>
        ensures passed { OnOk result (admission (view self.now) fills.now weights.now ≡ Ok tt) }
        ensures list { IfOk result (λ w. w.list.now ≡ weights.now) }
        ensures refused { IfErr result (λ r. admission (view self.now) fills.now weights.now ≡ Err r) }
    {
        check_fills(fills)?;
        let weights = Weights::new(weights, self.books.terms.ceiling)?;
        if self.books.closed {
            return Err(Refusal::Closed);
        }
        if self.books.report {
            return Err(Refusal::ReportOwed);
        }
        self.books.book().check_fills(fills)?;
        Ok(weights)
    }

    // All tests in their order, and the figures of a proposal that passes.
    fn judge(&self, fills: &[Fill], weights: &[Weight]) -> Result<Appraisal, Refusal>
        ensures value { result ≡ clear_tested C.Contract.meaning (view self.now) fills.now weights.now }
        ensures bound { IfOk result WithinType }
    {
        let weights = self.admit(fills, weights)?;
        let figures = self.books.book().appraise(fills, &weights);
        self.judge_figures(figures)?;
        Ok(figures)
    }

    // Tests a proposal and books it. Its report is owed until the token is published.
    pub fn clear(
        &mut self,
        fills: &[Fill],
        weights: &[Weight],
    ) -> Result<(Cleared, ReportToken), Refusal>
        ensures answer { told_clearing result ≡ clear_answer C.Contract.meaning (view self.old) fills.now weights.now }
        ensures token { TokenOf (view self.old) result }
        ensures after { view self.new ≡ clear_after C.Contract.meaning (view self.old) fills.now weights.now }
        ensures statement { Stated fills.now (view self.old) (view self.new) result }
        ensures named { self.new.books.rows.ghost_name ≡ self.old.books.rows.ghost_name }
    {
        let figures = self.judge(fills, weights)?;
        let cleared = cleared_as(self.books.latest.clearing + 1, figures);
        self.books.book_clearing(fills, figures.cash, cleared);
        let token = ReportToken::new(self.books.terms.house, cleared.clearing);
        Ok((cleared, token))
    }
}

// What a clearing with this number answers.
fn cleared_as(clearing: u32, figures: Appraisal) -> Cleared
    ensures { result ≡ cleared_as clearing figures }
{
    Cleared {
        clearing,
        net: figures.net,
        reserve: figures.reserve,
        worst: figures.worst,
        gap: figures.gap,
        weights: figures.weights,
    }
}
