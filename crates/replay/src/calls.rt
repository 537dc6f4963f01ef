// The calls that a list is made of, and what is recorded of each.
use books::answers::{Balance, Cleared, Standing};
use books::refusals::Refusal;
use matching::proposals::{Fill, Weight};
use matching::rows::Side;

// One call with its arguments. A publish says which token it brings: the house's own, or the one in a
// place of the tokens that are lent. The page is the one that is lent for the whole list.
#[derive(Drop)]
pub enum Call<'a, C> {
    Deposit {
        member: u64,
        amount: u64,
    },
    Withdraw {
        member: u64,
        amount: u64,
    },
    Fund {
        amount: u64,
    },
    Take {
        amount: u64,
    },
    Enter {
        member: u64,
        side: Side,
        contract: C,
        price: u64,
        lots: u64,
    },
    Cancel {
        member: u64,
        order: u64,
    },
    Clear {
        fills: &'a [Fill],
        weights: &'a [Weight],
    },
    Publish,
    PublishOther {
        place: usize,
    },
    Settle {
        price: u64,
    },
    Account {
        member: u64,
    },
    House,
}

// What a call answered.
#[derive(Clone, Copy, PartialEq, Eq, Debug)]
pub enum Answer {
    Done(Result<(), Refusal>),
    Entered(Result<u32, Refusal>),
    Cleared(Result<Cleared, Refusal>),
    Published(Result<usize, Refusal>),
    // there was no such token in hand, so nothing was called
    NoToken,
    Account(Result<Balance, Refusal>),
    House(Standing),
}
