// Cash in and out.
ghost use Rattle.std.specs.Prelude.{◌≡◌};
ghost use Rattle.books.specs.Calls.{too_much, free_cash, deposit_answer, deposit_after, fund_answer, fund_after, withdraw_answer, withdraw_after, take_answer, take_after};
ghost use Rattle.house.specs.View.{view};

use super::House;
use books::members::{Member, is_amount};
use books::refusals::Refusal;
use instruments::kind::Contract;

impl<'a, C: Contract> House<'a, C> {
    // Brings a member's cash in.
    pub fn deposit(&mut self, member: u64, amount: u64) -> Result<(), Refusal>
        ensures answer { result ≡ deposit_answer (view self.old) member amount }
        ensures after { view self.new ≡ deposit_after (view self.old) member amount }
        ensures named { self.new.books.rows.ghost_name ≡ self.old.books.rows.ghost_name }
    {
        let Some(member) = Member::new(member) else {
            return Err(Refusal::Member);
        };
        if !is_amount(amount) {
            return Err(Refusal::Amount);
        }
        if self.books.closed {
            return Err(Refusal::Closed);
        }
        if self.books.too_much(amount) {
            return Err(Refusal::TotalCash);
        }
        self.books.deposit(member, amount);
        Ok(())
    }

    // Brings cash into the house's own account.
    pub fn fund(&mut self, amount: u64) -> Result<(), Refusal>
        ensures answer { result ≡ fund_answer (view self.old) amount }
        ensures after { view self.new ≡ fund_after (view self.old) amount }
        ensures named { self.new.books.rows.ghost_name ≡ self.old.books.rows.ghost_name }
    {
        if !is_amount(amount) {
            return Err(Refusal::Amount);
        }
        if self.books.closed {
            return Err(Refusal::Closed);
        }
        if self.books.too_much(amount) {
            return Err(Refusal::TotalCash);
        }
        self.books.fund(amount);
        Ok(())
    }

    // Carries out what a member's orders do not hold.
    pub fn withdraw(&mut self, member: u64, amount: u64) -> Result<(), Refusal>
        ensures answer { result ≡ withdraw_answer C.Contract.meaning (view self.old) member amount }
        ensures after { view self.new ≡ withdraw_after C.Contract.meaning (view self.old) member amount }
        ensures named { self.new.books.rows.ghost_name ≡ self.old.books.rows.ghost_name }
    {
        let Some(member) = Member::new(member) else {
            return Err(Refusal::Member);
        };
        if !is_amount(amount) {
            return Err(Refusal::Amount);
        }
        if self.books.short_of(member, amount) {
            return Err(Refusal::FreeCash);
        }
        self.books.withdraw(member, amount);
        Ok(())
    }

    // Carries out the house's own cash beyond what is reserved.
    pub fn take(&mut self, amount: u64) -> Result<(), Refusal>
        ensures answer { result ≡ take_answer (view self.old) amount }
        ensures after { view self.new ≡ take_after (view self.old) amount }
        ensures named { self.new.books.rows.ghost_name ≡ self.old.books.rows.ghost_name }
    {
        if !is_amount(amount) {
            return Err(Refusal::Amount);
        }
        if self.books.house_short_of(amount) {
            return Err(Refusal::HouseShort);
        }
        self.books.take(amount);
        Ok(())
    }
}
