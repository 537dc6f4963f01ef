// Settling the house at the price where the index was fixed.
ghost use Rattle.std.specs.Prelude.{◌≡◌};
ghost use Rattle.books.specs.Settling.{settle_answer, settle_after};
ghost use Rattle.house.specs.View.{view};

use super::House;
use books::refusals::Refusal;
use instruments::kind::Contract;

impl<'a, C: Contract> House<'a, C> {
    // Pays every filled lot from and to the house, empties its rows and closes it.
    pub fn settle(&mut self, price: u64) -> Result<(), Refusal>
        ensures answer { result ≡ settle_answer (view self.old) price }
        ensures after { view self.new ≡ settle_after C.Contract.meaning (view self.old) price }
        ensures named { self.new.books.rows.ghost_name ≡ self.old.books.rows.ghost_name }
    {
        if price > u64::from(self.books.terms.ceiling.value) {
            return Err(Refusal::Price);
        }
        if self.books.closed {
            return Err(Refusal::Closed);
        }
        if self.books.report {
            return Err(Refusal::ReportOwed);
        }
        self.books.settle(price);
        Ok(())
    }
}
