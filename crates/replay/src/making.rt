// Making one call. The tokens and the page that are lent for the whole list stay parameters: once a
// struct that holds them is let go, nothing is known of what was written to them.
ghost use Rattle.std.specs.Prelude.{◌≡◌, None, slice_set};
ghost use Rattle.books.specs.Clearing.{clear_answer, clear_after};
ghost use Rattle.replay.specs.Desk.{published_desk, answer_to, Leaves, InHand, told_with, state_with, page_with, if_spent, token_at, own_after_clear};
ghost use Rattle.replay.specs.Seen.{state_of, seen};
ghost use Rattle.replay.specs.declared.calls.Answer.{Answer};
ghost use Rattle.replay.specs.declared.calls.Answer.TheVariants as told;

use crate::calls::{Answer, Call};
use crate::keeper::Keeper;
use house::token::ReportToken;
use instruments::kind::Contract;
use matching::proposals::{Fill, Weight};

impl<C: Contract> Keeper<'_, C> {
    // Clears a proposal. The token comes into hand; there is none yet, since no report was owed.
    fn clear(&mut self, fills: &[Fill], weights: &[Weight]) -> Answer
        requires { InHand (state_of self.old) self.old.own }
        ensures answer { result ≡ told.Cleared (clear_answer C.Contract.meaning (state_of self.old) fills.now weights.now) }
        ensures state { state_of self.new ≡ clear_after C.Contract.meaning (state_of self.old) fills.now weights.now }
        ensures own { self.new.own ≡ own_after_clear C.Contract.meaning (state_of self.old) fills.now weights.now self.old.own }
        ensures named { self.new.house.books.rows.ghost_name ≡ self.old.house.books.rows.ghost_name }
    {
        match self.house.clear(fills, weights) {
            Ok((cleared, token)) => {
                self.own = Some(token);
                Answer::Cleared(Ok(cleared))
            }
            Err(refusal) => Answer::Cleared(Err(refusal)),
        }
    }

    // Publishes with the house's own token, if it is in hand. A refusal hands it back.
    fn publish_own(&mut self, page: &mut [u8]) -> Answer
        ensures answer { result ≡ told_with self.old.own (state_of self.old) page.old }
        ensures state { state_of self.new ≡ state_with self.old.own (state_of self.old) page.old }
        ensures own { self.new.own ≡ if_spent self.old.own (state_of self.old) page.old None self.old.own }
        ensures page { page.new ≡ page_with self.old.own (state_of self.old) page.old }
        ensures named { self.new.house.books.rows.ghost_name ≡ self.old.house.books.rows.ghost_name }
    {
        let Some(token) = std::mem::replace(&mut self.own, None) else {
            return Answer::NoToken;
        };
        match self.house.publish(token, page) {
            Ok(length) => Answer::Published(Ok(length)),
            Err((back, refusal)) => {
                self.own = Some(back);
                Answer::Published(Err(refusal))
            }
        }
    }

    // Publishes with another token, if there is one in the place. A refusal puts it back. Where it is
    // accepted the house's own token, which has the same two numbers, takes its place.
    fn publish_other(
        &mut self,
        others: &mut [Option<ReportToken>],
        place: usize,
        page: &mut [u8],
    ) -> Answer
        ensures answer { result ≡ told_with (token_at others.old place) (state_of self.old) page.old }
        ensures after { seen self.new others.new page.new ≡ published_desk (token_at others.old place) (slice_set others.old place self.old.own) (seen self.old others.old page.old) }
        ensures named { self.new.house.books.rows.ghost_name ≡ self.old.house.books.rows.ghost_name }
    {
        if place >= others.len() {
            return Answer::NoToken;
        }
        let Some(token) = std::mem::replace(&mut others[place], None) else {
            return Answer::NoToken;
        };
        match self.house.publish(token, page) {
            Ok(length) => {
                others[place] = std::mem::replace(&mut self.own, None);
                Answer::Published(Ok(length))
            }
            Err((token, refusal)) => {
                others[place] = Some(token);
                Answer::Published(Err(refusal))
            }
        }
    }

    // Makes one call, and answers what it answered.
    pub(crate) fn make(
        &mut self,
        others: &mut [Option<ReportToken>],
        page: &mut [u8],
        call: &Call<'_, C>,
    ) -> Answer
        requires { InHand (state_of self.old) self.old.own }
        ensures answer { result ≡ answer_to C.Contract.meaning call.now (seen self.old others.old page.old) }
        ensures leaves { Leaves C.Contract.meaning call.now (seen self.old others.old page.old) (seen self.new others.new page.new) }
        ensures named { self.new.house.books.rows.ghost_name ≡ self.old.house.books.rows.ghost_name }
    {
        match call {
            Call::Deposit { member, amount } => Answer::Done(self.house.deposit(*member, *amount)),
            Call::Withdraw { member, amount } => {
                Answer::Done(self.house.withdraw(*member, *amount))
            }
            Call::Fund { amount } => Answer::Done(self.house.fund(*amount)),
            Call::Take { amount } => Answer::Done(self.house.take(*amount)),
            Call::Enter {
                member,
                side,
                contract,
                price,
                lots,
            } => Answer::Entered(self.house.enter(*member, *side, *contract, *price, *lots)),
            Call::Cancel { member, order } => Answer::Done(self.house.cancel(*member, *order)),
            Call::Clear { fills, weights } => self.clear(fills, weights),
            Call::Publish => self.publish_own(page),
            Call::PublishOther { place } => self.publish_other(others, *place, page),
            Call::Settle { price } => Answer::Done(self.house.settle(*price)),
            Call::Account { member } => Answer::Account(self.house.account(*member)),
            Call::House => Answer::House(self.house.house()),
        }
    }
}
