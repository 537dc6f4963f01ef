// What the calls change in the cash of members and house. The tests that come before are the house's; each
// change keeps within its type because the state is sound.
ghost use Rattle.std.specs.Prelude.{◌≡◌, pos, ◌+ℤ◌, ◌-ℤ◌, neg_ℤ};
ghost use Rattle.books.specs.Calls.{too_much, short_of, house_short_of, with_members, with_cash};
ghost use Rattle.books.specs.Money.{cash_of, credited};
ghost use Rattle.books.specs.Sound.{Sound};
ghost use Rattle.books.specs.State.{shape, all_cash};

use crate::ledger::Books;
use crate::members::{MAX_CASH, Member};
use instruments::kind::Contract;

impl<'a, C> Books<'a, C> {
    // All cash together, the members' and the house's.
    pub fn all_cash(&self) -> i128
        requires { Sound (shape self.now) }
        ensures { result ≡ all_cash (shape self.now) }
    {
        self.accounts.total() + self.cash
    }

    // Would this much more pass the limit on all cash together?
    pub fn too_much(&self, amount: u64) -> bool
        requires { Sound (shape self.now) }
        ensures { result ≡ too_much (shape self.now) amount }
    {
        i128::from(MAX_CASH) < self.all_cash() + i128::from(amount)
    }

    pub fn deposit(&mut self, member: Member, amount: u64)
        requires sound { Sound (shape self.old) }
        ensures value { shape self.new ≡ with_members (shape self.old) (credited (shape self.old).members member.number (pos amount)) }
        ensures named { self.new.rows.ghost_name ≡ self.old.rows.ghost_name }
    {
        self.accounts.credit(member, i128::from(amount));
    }

    pub fn withdraw(&mut self, member: Member, amount: u64)
        requires sound { Sound (shape self.old) }
        ensures value { shape self.new ≡ with_members (shape self.old) (credited (shape self.old).members member.number (neg_ℤ (pos amount))) }
        ensures named { self.new.rows.ghost_name ≡ self.old.rows.ghost_name }
    {
        self.accounts.credit(member, -i128::from(amount));
    }

    pub fn fund(&mut self, amount: u64)
        requires { Sound (shape self.old) }
        ensures value { shape self.new ≡ with_cash (shape self.old) ((shape self.old).cash +ℤ pos amount) }
        ensures named { self.new.rows.ghost_name ≡ self.old.rows.ghost_name }
    {
        self.cash += i128::from(amount);
    }

    // Is less than an amount left of the house's cash beyond what is reserved?
    pub fn house_short_of(&self, amount: u64) -> bool
        requires { Sound (shape self.now) }
        ensures { result ≡ house_short_of (shape self.now) amount }
    {
        self.cash - self.reserve.max(0) < i128::from(amount)
    }

    pub fn take(&mut self, amount: u64)
        requires { Sound (shape self.old) }
        ensures value { shape self.new ≡ with_cash (shape self.old) ((shape self.old).cash -ℤ pos amount) }
        ensures named { self.new.rows.ghost_name ≡ self.old.rows.ghost_name }
    {
        self.cash -= i128::from(amount);
    }

    // A member's cash.
    pub fn cash_of(&self, member: Member) -> i128
        ensures { result ≡ cash_of (shape self.now).members member.number }
    {
        self.accounts.cash_of(member)
    }
}

impl<'a, C: Contract> Books<'a, C> {
    // Is the member's free cash below an amount?
    pub fn short_of(&self, member: Member, amount: u64) -> bool
        requires sound { Sound (shape self.now) }
        ensures { result ≡ short_of C.Contract.meaning (shape self.now) member.number amount }
    {
        self.cash_of(member) - i128::from(self.held(member.number)) < i128::from(amount)
    }
}
