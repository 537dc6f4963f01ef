// What a clearing and a settlement pay: each of the house's rows credits its member, one by one.
ghost use Rattle.std.specs.Prelude.{◌≡◌, ℕ, ℤ, ◌+◌, ◌*◌, ◌^◌, true, neg_ℤ};
ghost use Rattle.std.specs.List.{list_all};
ghost use Rattle.books.specs.Money.{moved, share, cash_in, within, at_least};
ghost use Rattle.books.specs.Payments.{Brings};
ghost use Rattle.books.specs.Settling.{paid_out};
ghost use Rattle.matching.specs.Figures.{row_cash};
ghost use Rattle.matching.specs.Fills.{given};
ghost use Rattle.matching.specs.Sums.{Small};

use crate::accounts::Accounts;
use instruments::kind::Contract;
use matching::book::Book;
use matching::figures::{row_cash, row_exposed};
use matching::proposals::Fill;
use matching::rows::Row;

// Credits the member of each of the house's rows with what the closure says of the row. No account falls
// by more than the last clause says.
fn credit_members<C, F: Fn(&Row<C>) -> i128>(book: &Book<C>, amount: F, accounts: &mut Accounts)
    requires callable { F.IsAlwaysCallable amount }
    requires had { list_all (within (2 ^ 100)) (cash_in accounts.old.list) ≡ true }
    requires small { (flow : Row C → ℤ) × Brings F.Fn amount flow (2 ^ 96) }
    ensures value { (flow : Row C → ℤ) (size : ℕ) → Brings F.Fn amount flow size → cash_in accounts.new.list ≡ moved (share flow book.now.rows.now) (cash_in accounts.old.list) }
    ensures low { (flow : Row C → ℤ) (size b : ℕ) → Brings F.Fn amount flow size → list_all (at_least b) (cash_in accounts.old.list) ≡ true → list_all (at_least (b + 256 * size)) (cash_in accounts.new.list) ≡ true }
{
    for row in book.rows {
        accounts.credit_if_member(row.member, amount(row));
    }
}

// What a row's fill brings its member: a seller receives what a buyer pays.
fn row_receives<C>(row: &Row<C>, fills: &[Fill]) -> i128
    ensures value { result ≡ neg_ℤ (row_cash (given fills.now) row.now) }
    ensures bound { Small (2 ^ 96) result }
{
    -row_cash(row, fills)
}

// Buyers pay the price of their fills, and sellers receive it.
pub fn pay_for_fills<C>(book: &Book<C>, fills: &[Fill], accounts: &mut Accounts)
    requires { list_all (within (2 ^ 100)) (cash_in accounts.old.list) ≡ true }
    ensures { cash_in accounts.new.list ≡ moved (λ n. neg_ℤ (share (row_cash (given fills.now)) book.now.rows.now n)) (cash_in accounts.old.list) }
{
    credit_members(book, |row| row_receives(row, fills), accounts);
}

// Each filled buy is paid what it pays off at the price, and each filled sell pays it. No account falls
// by more than the second clause says, whatever the rows hold.
pub fn pay_out<C: Contract>(book: &Book<C>, price: u64, accounts: &mut Accounts)
    requires { list_all (within (2 ^ 100)) (cash_in accounts.old.list) ≡ true }
    ensures value { cash_in accounts.new.list ≡ moved (paid_out C.Contract.meaning book.now.ceiling.value price book.now.rows.now) (cash_in accounts.old.list) }
    ensures low { (b : ℕ) → list_all (at_least b) (cash_in accounts.old.list) ≡ true → list_all (at_least (b + 2 ^ 56)) (cash_in accounts.new.list) ≡ true }
{
    credit_members(
        book,
        |row| i128::from(row_exposed(row, book.ceiling, price)),
        accounts,
    );
}
