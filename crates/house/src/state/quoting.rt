// Quoting one more contract. Nothing changes.
ghost use Rattle.std.specs.Prelude.{◌≡◌};
ghost use Rattle.books.specs.Quoting.{quote_answer};
ghost use Rattle.house.specs.View.{view};

use super::House;
use books::members::is_lots;
use books::refusals::Refusal;
use instruments::kind::Contract;
use matching::proposals::{Fill, Weight, check_fills};
use matching::quotes::{Asked, Quote, Request};
use matching::weights::Weights;

impl<'a, C: Contract> House<'a, C> {
    // What lots of a contract, bid or asked, would be quoted at beside a proposal.
    pub fn quote(
        &self,
        contract: C,
        request: Request,
        lots: u64,
        fills: &[Fill],
        weights: &[Weight],
    ) -> Result<Quote, Refusal>
        ensures { result ≡ quote_answer C.Contract.meaning (view self.now) contract request lots fills.now weights.now }
    {
        contract.check(self.books.terms.ceiling)?;
        if !is_lots(lots) {
            return Err(Refusal::Lots);
        }
        check_fills(fills)?;
        let weights = Weights::new(weights, self.books.terms.ceiling)?;
        if self.books.closed {
            return Err(Refusal::Closed);
        }
        let book = self.books.book();
        book.check_fills(fills)?;
        let asked = Asked {
            contract,
            request,
            lots,
        };
        let figures = book.quote(fills, &weights, asked);
        if self.books.gap_too_large(figures.gap, figures.weights) {
            return Err(Refusal::GapTooLarge);
        }
        Ok(figures)
    }
}
