// The ranges of the figures that calls are given.
ghost use Rattle.std.specs.Prelude.{◌≡◌, true};
ghost use Rattle.books.specs.Calls.{is_amount, is_lots};
ghost use Rattle.books.specs.Money.{is_member, offered_member};
ghost use Rattle.instruments.specs.Bounds.{figure};

pub const MAX_MEMBER: u64 = 64;
// of one amount, and of all cash together
pub const MAX_CASH: u64 = 1_000_000_000_000;

pub const MAX_PRICE: u64 = 1_000_000;

pub const MAX_LOTS: u64 = 1_000;
// orders and clearings are numbered from 1
pub const MAX_NUMBER: u32 = 999_999;

// A number that is always a member's.
#[derive(Clone, Copy, PartialEq, Eq, Debug)]
pub struct Member {
    pub number: u64,
    ghost known: { is_member number ≡ true },
}

impl Member {
    // The member with this number, or none where there is no such member.
    pub fn new(number: u64) -> Option<Member>
        ensures { figure (λ m. m.number) result ≡ offered_member number }
    {
        if (1..=MAX_MEMBER).contains(&number) {
            Some(Member { number })
        } else {
            None
        }
    }
}

pub fn is_amount(amount: u64) -> bool
    ensures { result ≡ is_amount amount }
{
    (1..=MAX_CASH).contains(&amount)
}

pub fn is_lots(lots: u64) -> bool
    ensures { result ≡ is_lots lots }
{
    (1..=MAX_LOTS).contains(&lots)
}
