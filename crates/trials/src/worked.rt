// The terms of the worked trials, and the table of these trials as one theorem.
ghost use Rattle.std.specs.Prelude.{◌≡◌};
ghost use Rattle.instruments.specs.Worked.{table_ceiling};
ghost use Rattle.trials.specs.Trials.{Trials};

use books::terms::Terms;
use instruments::bounds::Ceiling;
use instruments::worked::worked_ceiling;

// House 1 with no gap allowed.
fn exact_terms(ceiling: Ceiling) -> Terms
    ensures house { result.house ≡ 1 }
    ensures ceiling { result.ceiling.value ≡ ceiling.value }
    ensures gap { result.gap ≡ 0 }
{
    Terms {
        house: 1,
        ceiling,
        gap: 0,
    }
}

// The terms of the house that the first book is run in. Whoever asks for them learns that every row of
// the table holds.
pub fn worked_terms() -> Terms
    ensures trials { Trials }
    ensures house { result.house ≡ 1 }
    ensures ceiling { result.ceiling.value ≡ table_ceiling }
    ensures gap { result.gap ≡ 0 }
{
    exact_terms(worked_ceiling())
}
