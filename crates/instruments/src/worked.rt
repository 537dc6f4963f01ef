// The table of worked contracts, as one theorem.
ghost use Rattle.std.specs.Prelude.{◌≡◌};
ghost use Rattle.instruments.specs.Worked.{WorkedPayoffs, table_ceiling};

use crate::bounds::Ceiling;

// The ceiling of the table. Whoever asks for it learns that every row of the table holds.
pub fn worked_ceiling() -> Ceiling
    ensures table { WorkedPayoffs }
    ensures under { result.value ≡ table_ceiling }
{
    Ceiling { value: 200 }
}
