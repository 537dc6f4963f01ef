// The members' accounts.
ghost use Rattle.std.specs.Prelude.{◌≡◌, ◌^◌, true, length, replicate, pos, ◌+ℤ◌};
ghost use Rattle.std.specs.List.{list_all};
ghost use Rattle.books.specs.Money.{cash_of, credited, credited_if_member, cash_in, within};
ghost use Rattle.matching.specs.Sums.{total, Small};

use crate::members::{MAX_MEMBER, Member};

pub const MEMBERS: usize = MAX_MEMBER as usize;

// What a member has. What is held of it is counted from the rows, and never stored.
#[derive(Clone, Copy)]
pub struct Account {
    pub cash: i128,
}

impl Account {
    // The bounds leave room for every sum of credits that a house can make.
    pub fn credit(&mut self, amount: i128)
        requires had { Small (2 ^ 120) self.old.cash }
        requires small { Small (2 ^ 120) amount }
        ensures { self.new.cash ≡ self.old.cash +ℤ amount }
    {
        self.cash += amount;
    }
}

// One account for each member. A list in a clause has any length, so the count is stated.
#[derive(Clone, Copy)]
pub struct Accounts {
    pub list: [Account; MEMBERS],
    ghost counted: { length list ≡ 64 },
}

impl Accounts {
    pub fn empty() -> Accounts
        ensures { cash_in result.list ≡ replicate 64 (pos 0) }
    {
        Accounts {
            list: [Account { cash: 0 }; MEMBERS],
        }
    }

    pub fn cash_of(&self, member: Member) -> i128
        ensures { result ≡ cash_of (cash_in self.now.list) member.number }
    {
        self.list[(member.number - 1) as usize].cash
    }

    pub fn credit(&mut self, member: Member, amount: i128)
        requires had { Small (2 ^ 120) (cash_of (cash_in self.old.list) member.number) }
        requires small { Small (2 ^ 120) amount }
        ensures { cash_in self.new.list ≡ credited (cash_in self.old.list) member.number amount }
    {
        self.list[(member.number - 1) as usize].credit(amount);
    }

    // The same for the member that a row names. A row that is not used may name no member at all.
    pub fn credit_if_member(&mut self, member: u8, amount: i128)
        requires had { list_all (within (2 ^ 120)) (cash_in self.old.list) ≡ true }
        requires small { Small (2 ^ 120) amount }
        ensures { cash_in self.new.list ≡ credited_if_member (cash_in self.old.list) member amount }
    {
        if let Some(member) = Member::new(u64::from(member)) {
            self.credit(member, amount);
        }
    }

    // All that the members have together. By a loop, since a chain's `sum` of signed numbers gets no proof.
    pub fn total(&self) -> i128
        requires { list_all (within (2 ^ 110)) (cash_in self.now.list) ≡ true }
        ensures { result ≡ total (λ z. z) (cash_in self.now.list) }
    {
        let mut sum: i128 = 0;
        for account in &self.list {
            sum += account.cash;
        }
        sum
    }
}
