// Why a call is refused. One enum for the whole house; the faults of a contract and of a proposal come in
// by `From`, and so by `?`.
ghost use Rattle.std.specs.Prelude.{◌≡◌};
ghost use Rattle.books.specs.Refusals.{number_of, values_of, weight_value, two_of, contract_refusal, bad_fill_refusal, weight_refusal, fill_refusal};

use instruments::faults::Invalid;
use matching::proposals::{BadFill, FillFault, WeightFault};
use thiserror::Error;

// The words of each are what a refusal prints.
#[derive(Clone, Copy, PartialEq, Eq, Debug, Error)]
pub enum Refusal {
    // for the figures given
    #[error("terms out of range")]
    Terms,
    #[error("member not 1 to 64")]
    Member,
    #[error("amount not 1 to 1,000,000,000,000")]
    Amount,
    #[error("the contract is not valid: reason {}, place {}", .0.reason.number(), .0.place.number())]
    Contract(Invalid),
    #[error("limit price above 1,000,000")]
    LimitPrice,
    #[error("lots not 1 to 1,000")]
    Lots,
    #[error("price above the ceiling")]
    Price,
    // the first fill that has no lots or does not rise
    #[error("the fill at {0} has no lots, or its order is not above the one before")]
    Fills(usize),
    #[error(transparent)]
    Weights(WeightFault),
    // for the state of the house
    #[error("the house is closed")]
    Closed,
    #[error("a report is owed")]
    ReportOwed,
    #[error("free cash below the amount or the new hold")]
    FreeCash,
    #[error("no unused row")]
    RowsFull,
    // the order that does not stand, and the one that is filled above its open lots
    #[error("order {0} does not stand, or is another member's")]
    NotStanding(u64),
    #[error("the fill of order {0} is above its open lots")]
    AboveOpen(u64),
    #[error("all cash together would pass 1,000,000,000,000")]
    TotalCash,
    #[error("the net is below 0")]
    NetBelowZero,
    #[error("the gap is above the allowed gap")]
    GapTooLarge,
    #[error("the house's cash would not do")]
    HouseShort,
    #[error("number 999,999 is used")]
    NumbersUsedUp,
    #[error("the token is not for the report owed here")]
    WrongToken,
    #[error("the page is shorter than the report")]
    PageTooShort,
    #[error("the list is shorter than the count")]
    ListTooShort,
}

impl Refusal {
    // The number under which it is told. A variant that holds values can have no number of its own.
    pub fn number(self) -> u8
        ensures { result ≡ number_of self }
    {
        match self {
            Refusal::Terms => 10,
            Refusal::Member => 12,
            Refusal::Amount => 13,
            Refusal::Contract(_) => 14,
            Refusal::LimitPrice => 15,
            Refusal::Lots => 16,
            Refusal::Price => 17,
            Refusal::Fills(_) => 18,
            Refusal::Weights(_) => 19,
            Refusal::Closed => 40,
            Refusal::ReportOwed => 41,
            Refusal::FreeCash => 42,
            Refusal::RowsFull => 43,
            Refusal::NotStanding(_) => 44,
            Refusal::AboveOpen(_) => 45,
            Refusal::TotalCash => 46,
            Refusal::NetBelowZero => 47,
            Refusal::GapTooLarge => 48,
            Refusal::HouseShort => 49,
            Refusal::NumbersUsedUp => 50,
            Refusal::WrongToken => 51,
            Refusal::PageTooShort => 52,
            Refusal::ListTooShort => 53,
        }
    }
}

impl Refusal {
    // The values that it carries: for a contract the numbers of its reason and place, else a count, an
    // index or an order number, or none.
    pub fn values(self) -> (Option<u64>, Option<u64>)
        ensures { result ≡ two_of (values_of self) }
    {
        match self {
            Refusal::Contract(fault) => (
                Some(u64::from(fault.reason.number())),
                Some(u64::from(fault.place.number())),
            ),
            Refusal::Fills(i) => (Some(i as u64), None),
            Refusal::Weights(fault) => (Some(weight_value(fault)), None),
            Refusal::NotStanding(n) | Refusal::AboveOpen(n) => (Some(n), None),
            _ => (None, None),
        }
    }
}

fn weight_value(fault: WeightFault) -> u64
    ensures { result ≡ weight_value fault }
{
    match fault {
        WeightFault::Count(n) | WeightFault::Entry(n) | WeightFault::Sum(n) => n as u64,
    }
}

impl From<Invalid> for Refusal {
    ghost from_gives = { λ u f. f ≡ contract_refusal u };

    fn from(fault: Invalid) -> Refusal {
        Refusal::Contract(fault)
    }
}

impl From<BadFill> for Refusal {
    ghost from_gives = { λ u f. f ≡ bad_fill_refusal u };

    fn from(fault: BadFill) -> Refusal {
        Refusal::Fills(fault.index)
    }
}

impl From<WeightFault> for Refusal {
    ghost from_gives = { λ u f. f ≡ weight_refusal u };

    fn from(fault: WeightFault) -> Refusal {
        Refusal::Weights(fault)
    }
}

impl From<FillFault> for Refusal {
    ghost from_gives = { λ u f. f ≡ fill_refusal u };

    fn from(fault: FillFault) -> Refusal {
        match fault {
            FillFault::NotStanding(number) => Refusal::NotStanding(number),
            FillFault::AboveOpen(number) => Refusal::AboveOpen(number),
        }
    }
}
