// Publishing the report that is owed.
ghost use Rattle.std.specs.Prelude.{◌≡◌};
ghost use Rattle.books.specs.Publishing.{publish_answer, publish_page, publish_after};
ghost use Rattle.house.specs.View.{view, told_publishing, HandedBack};

use super::House;
use crate::token::ReportToken;
use books::refusals::Refusal;
use instruments::kind::Contract;
use report::writing::write_report;

impl<'a, C: Contract> House<'a, C> {
    // Spends the token, writes the report to the front of the page and answers its length. A refusal hands
    // the same token back.
    pub fn publish(
        &mut self,
        token: ReportToken,
        page: &mut [u8],
    ) -> Result<usize, (ReportToken, Refusal)>
        ensures answer { told_publishing result ≡ publish_answer (view self.old) token.house token.clearing page.old }
        ensures back { HandedBack token result }
        ensures page { page.new ≡ publish_page (view self.old) token.house token.clearing page.old }
        ensures after { view self.new ≡ publish_after (view self.old) token.house token.clearing page.old }
        ensures named { self.new.books.rows.ghost_name ≡ self.old.books.rows.ghost_name }
    {
        if !self.books.owes(token.house(), token.clearing()) {
            return Err((token, Refusal::WrongToken));
        }
        let Some(length) = write_report(self.books.latest, page) else {
            return Err((token, Refusal::PageTooShort));
        };
        self.books.published();
        token.spend();
        Ok(length)
    }
}
