// Entering and cancelling orders.
ghost use Rattle.std.specs.Prelude.{◌≡◌};
ghost use Rattle.books.specs.Calls.{enter_answer, Entered, cancel_answer, cancel_after};
ghost use Rattle.house.specs.View.{view};

use super::House;
use books::members::{MAX_NUMBER, MAX_PRICE, Member, is_lots};
use books::refusals::Refusal;
use instruments::kind::Contract;
use matching::rows::{Row, Side};

impl<'a, C: Contract> House<'a, C> {
    // Enters an order and answers its number. Which unused row it takes is left free.
    pub fn enter(
        &mut self,
        member: u64,
        side: Side,
        contract: C,
        price: u64,
        lots: u64,
    ) -> Result<u32, Refusal>
        ensures answer { result ≡ enter_answer C.Contract.meaning (view self.old) member side contract price lots }
        ensures after { Entered C.Contract.meaning (view self.old) (view self.new) member side contract price lots result }
        ensures named { self.new.books.rows.ghost_name ≡ self.old.books.rows.ghost_name }
    {
        let Some(member) = Member::new(member) else {
            return Err(Refusal::Member);
        };
        contract.check(self.books.terms.ceiling)?;
        if price > MAX_PRICE {
            return Err(Refusal::LimitPrice);
        }
        if !is_lots(lots) {
            return Err(Refusal::Lots);
        }
        if self.books.closed {
            return Err(Refusal::Closed);
        }
        let row = Row {
            // the books put their next number in its place
            order: 0,
            member: member.number as u8,
            side,
            contract,
            price: price as u32,
            open: lots as u16,
            filled: 0,
        };
        let hold = row.tied_up(self.books.terms.ceiling);
        if self.books.short_of(member, hold) {
            return Err(Refusal::FreeCash);
        }
        let Some(k) = self.books.free_row() else {
            return Err(Refusal::RowsFull);
        };
        if self.books.orders >= MAX_NUMBER {
            return Err(Refusal::NumbersUsedUp);
        }
        self.books.place(k, row);
        Ok(self.books.orders)
    }

    // Takes back the open lots of a member's own order. Its filled lots stay.
    pub fn cancel(&mut self, member: u64, order: u64) -> Result<(), Refusal>
        ensures answer { result ≡ cancel_answer (view self.old) member order }
        ensures after { view self.new ≡ cancel_after (view self.old) member order }
        ensures named { self.new.books.rows.ghost_name ≡ self.old.books.rows.ghost_name }
    {
        let Some(member) = Member::new(member) else {
            return Err(Refusal::Member);
        };
        if self.books.closed {
            return Err(Refusal::Closed);
        }
        if !self.books.has_own(member.number, order) {
            return Err(Refusal::NotStanding(order));
        }
        self.books.cancel(member.number, order);
        Ok(())
    }
}
