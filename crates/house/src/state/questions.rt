// The questions. They change nothing.
ghost use Rattle.std.specs.Prelude.{◌≡◌};
ghost use Rattle.books.specs.Questions.{account_answer, order_answer, exposure_answer, house_answer};
ghost use Rattle.house.specs.View.{view};

use super::House;
use books::answers::{Balance, Standing};
use books::members::Member;
use books::refusals::Refusal;
use instruments::kind::Contract;

impl<'a, C: Contract> House<'a, C> {
    // A member's cash, and what its orders hold of it.
    pub fn account(&self, member: u64) -> Result<Balance, Refusal>
        ensures { result ≡ account_answer C.Contract.meaning (view self.now) member }
    {
        let Some(member) = Member::new(member) else {
            return Err(Refusal::Member);
        };
        Ok(Balance {
            cash: self.books.cash_of(member),
            held: self.books.held(member.number),
        })
    }

    // The open and filled lots of the order with this number, or nothing where no used row has it.
    pub fn order(&self, number: u64) -> Option<(u16, u16)>
        ensures { result ≡ order_answer (view self.now) number }
    {
        self.books.lots(number)
    }

    // What all filled lots owe at a price.
    pub fn exposure(&self, price: u64) -> Result<i64, Refusal>
        ensures { result ≡ exposure_answer C.Contract.meaning (view self.now) price }
    {
        if price > u64::from(self.books.terms.ceiling.value) {
            return Err(Refusal::Price);
        }
        Ok(self.books.exposed(price))
    }

    // The house's own cash and reserve, how many clearings there were, and whether a report is owed.
    pub fn house(&self) -> Standing
        ensures { result ≡ house_answer (view self.now) }
    {
        self.books.standing()
    }
}
