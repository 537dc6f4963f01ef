// Terms made from figures that are offered.
ghost use Rattle.std.specs.Prelude.{◌≡◌};
ghost use Rattle.books.specs.Terms.{terms_answer, told_terms};

use crate::refusals::Refusal;
use crate::terms::{MAX_GAP, MAX_HOUSE, Terms};
use instruments::bounds::Ceiling;

impl Terms {
    // The terms with these figures, or a refusal where one is out of its range.
    pub fn new(house: u64, ceiling: u64, gap: u64) -> Result<Terms, Refusal>
        ensures { told_terms result ≡ terms_answer house ceiling gap }
    {
        let Some(ceiling) = Ceiling::new(ceiling) else {
            return Err(Refusal::Terms);
        };
        if house > MAX_HOUSE || gap > MAX_GAP {
            return Err(Refusal::Terms);
        }
        Ok(Terms {
            house: house as u16,
            ceiling,
            gap: gap as u32,
        })
    }
}
