// The books of a house: its state, over rows that are lent to it.
use crate::accounts::Accounts;
use crate::answers::Cleared;
use crate::terms::Terms;
use matching::rows::Row;

#[derive(Drop)]
pub struct Books<'a, C> {
    pub terms: Terms,
    pub accounts: Accounts,
    pub cash: i128,
    pub reserve: i128,
    // the last order number
    pub orders: u32,
    // what the latest clearing answered, with number 0 before the first: each count goes on from that 0,
    // which an `Option` would bring back case by case
    pub latest: Cleared,
    // the latest clearing's report is not published yet: a flag, since the number stays when it is
    pub report: bool,
    // a flag and no type of its own, since a caller has one house, and most calls answer in it either way
    pub closed: bool,
    pub rows: &'a mut [Row<C>],
}
