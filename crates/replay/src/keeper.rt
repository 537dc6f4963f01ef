// Who keeps a house: the house, and the token of the report that it owes, if one is owed.
use house::state::House;
use house::token::ReportToken;

pub struct Keeper<'r, C> {
    pub house: House<'r, C>,
    pub own: Option<ReportToken>,
}
