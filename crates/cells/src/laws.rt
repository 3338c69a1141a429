// The laws of contributions, for every choice of a measure for each column, and of columns in one list.
ghost use Rattle.std.specs.Prelude.{◌≡◌, ℕ, ◌<◌, List};
ghost use Rattle.std.specs.List.{AllByRecursion};
ghost use Rattle.cells.specs.Groups.{Sorted};
ghost use Rattle.cells.specs.Columns.{columns, flat};
ghost use Rattle.cells.specs.Contributions.{Law};

use crate::cell::Cell;
use measures::measure::Measure;

// Carries the laws; there is nothing to do.
pub fn laws_of_contributions<M: Measure>()
    ensures { (measures : ℕ → M) → Law (λ k. M.Measure.meaning (measures k)) }
{}

// Carries this: groups of n columns that are in order are those of each column, one column after the
// other. There is nothing to do.
pub fn columns_lie_in_one_list<V>()
    ensures { (n : ℕ) (cs : List (Cell V)) → Sorted cs → AllByRecursion (λ c. c.id.column < n) cs → flat 0 (columns 0 n cs) ≡ cs }
{}
