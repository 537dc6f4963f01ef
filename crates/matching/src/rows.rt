// The order rows. The caller lends a slice of them; the first 256 belong to the house.
ghost use Rattle.std.specs.Prelude.{◌≡◌, ◌+◌, ◌^◌, ◌≤◌, length};
ghost use Rattle.matching.specs.Rows.{house_rows, standing, used, hold, held_in_row};
ghost use Rattle.matching.specs.Sums.{Small};

use crate::products::times;
use instruments::bounds::Ceiling;
use instruments::kind::Contract;

pub const HOUSE_ROWS: usize = 256;

#[derive(Clone, Copy, PartialEq, Eq, Debug)]
pub enum Side {
    Buy,
    Sell,
}

// A row is unused while it has no lots, and then its other figures say nothing. An order stands while
// it has open lots. Lots are 16 bits wide, and payoffs, collateral and prices 32: so every sum over
// the rows fits its type, whatever the rows hold.
#[derive(Clone, Copy)]
pub struct Row<C> {
    pub order: u32,
    pub member: u8,
    pub side: Side,
    pub contract: C,
    pub price: u32,
    pub open: u16,
    pub filled: u16,
}

impl<C> Row<C> {
    // A row that is unused, with a contract that says nothing.
    pub fn unused(contract: C) -> Row<C>
        ensures { result ≡ record { order = 0; member = 0; side = Side.Buy; contract = contract; price = 0; «open» = 0; filled = 0 } }
    {
        Row {
            order: 0,
            member: 0,
            side: Side::Buy,
            contract,
            price: 0,
            open: 0,
            filled: 0,
        }
    }

    // An order stands while it has open lots.
    pub fn is_standing(&self) -> bool
        ensures { result ≡ standing self.now }
    {
        self.open > 0
    }

    // A row is used while it has open or filled lots.
    pub fn is_used(&self) -> bool
        ensures { result ≡ used self.now }
    {
        self.is_standing() || self.filled > 0
    }

    fn all_lots(&self) -> u64
        ensures value { result ≡ self.now.«open» + self.now.filled }
        ensures bound { result ≤ 2 ^ 17 }
    {
        u64::from(self.open) + u64::from(self.filled)
    }
}

impl<C: Contract> Row<C> {
    // What the order ties up of its member's cash.
    pub fn tied_up(&self, ceiling: Ceiling) -> u64
        ensures value { result ≡ hold C.Contract.meaning ceiling.value self.now self.now.side }
        ensures bound { result ≤ 2 ^ 49 }
    {
        match self.side {
            Side::Buy => times(u64::from(self.open), self.price) as u64,
            Side::Sell => times(self.all_lots(), self.contract.collateral(ceiling)) as u64,
        }
    }

    // The same where the row is the member's, and else 0.
    pub(crate) fn held_of(&self, ceiling: Ceiling, member: u64) -> i128
        ensures value { result ≡ held_in_row C.Contract.meaning ceiling.value member self.now }
        ensures bound { Small (2 ^ 49) result }
    {
        if u64::from(self.member) == member {
            i128::from(self.tied_up(ceiling))
        } else {
            0
        }
    }
}

// The rows that belong to the house, of all that are lent.
pub fn house_rows<C>(rows: &[Row<C>]) -> &[Row<C>]
    ensures value { result.now ≡ house_rows rows.now }
    ensures bound { length result.now ≤ 256 }
{
    let count = rows.len().min(HOUSE_ROWS);
    &rows[..count]
}
