// The question which orders stand. It changes nothing but the caller's list.
ghost use Rattle.std.specs.Prelude.{◌≡◌, ◌≤◌, ◌++◌, length, drop, count_by};
ghost use Rattle.books.specs.Questions.{standing_numbers, standing_answer};
ghost use Rattle.house.specs.Listing.{ListsStanding};
ghost use Rattle.house.specs.View.{view};
ghost use Rattle.matching.specs.Rows.{standing};

use super::House;
use books::refusals::Refusal;
use instruments::kind::Contract;
use matching::rows::{Row, house_rows};

// How many of the rows are standing orders.
fn count_standing<C>(rows: &[Row<C>]) -> usize
    ensures { result ≡ count_by standing rows.now }
{
    rows.iter().filter(|row| row.is_standing()).count()
}

// Writes their numbers to the front of the list, in the order of their rows.
fn write_standing<C>(rows: &[Row<C>], list: &mut [u32])
    requires { length (standing_numbers rows.now) ≤ length list.old }
    ensures { list.new ≡ standing_numbers rows.now ++ drop (length (standing_numbers rows.now)) list.old }
{
    // by hand, since a `for` over the filtered rows gets no proof of the place where each is written
    let mut n: usize = 0;
    for row in rows {
        if row.is_standing() {
            list[n] = row.order;
            n += 1;
        }
    }
}

impl<'a, C: Contract> House<'a, C> {
    // Writes the number of each standing order to the front of the list, and answers how many there
    // are. Their order is left free. A list that they do not fit is refused, and left as it is.
    #[tactic(auto, using(crate::proofs::Listed::numbers_counted))]
    pub fn standing(&self, list: &mut [u32]) -> Result<usize, Refusal>
        ensures answer { result ≡ standing_answer (view self.now) list.old }
        ensures list { ListsStanding (view self.now) list.old list.new result }
    {
        let rows = house_rows(self.books.rows);
        let n = count_standing(rows);
        if list.len() < n {
            return Err(Refusal::ListTooShort);
        }
        write_standing(rows, list);
        Ok(n)
    }
}
