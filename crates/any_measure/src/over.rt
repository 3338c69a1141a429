// The answer of a kind over a list of measured values.
ghost use Rattle.std.specs.Prelude.{◌≡◌, true, [], ◌∷◌, fold};
ghost use Rattle.any_measure.specs.Plain.{are_measured_rows, plain, plain_of_rows};
ghost use Rattle.any_measure.specs.Groupings.{FiveKinds};

use crate::any::AnyMeasure;
use measures::answer::Answer;
use measures::measure::Measure;
use measures::values::{MOST_ROWS, all_row_values};

// Whether these can be the measured values of rows: not too many, and each a row value.
fn are_measured_rows(values: &[i32]) -> bool
    ensures { result ≡ are_measured_rows values.now }
{
    // `usize` has no `From<u32>`; `as` is proved to lose nothing
    values.len() <= MOST_ROWS as usize && all_row_values(values)
}

// The value of some rows by their measured values: the one-row values joined from the first on.
pub fn joined<M: Measure>(measure: &M, values: &[i32]) -> M::Value
    ensures { result ≡ fold (λ a v. (M.Measure.meaning measure.now).join a ((M.Measure.meaning measure.now).one (v ∷ []))) (M.Measure.meaning measure.now).none values.now }
{
    values.iter().fold(measure.none(), |all, value| {
        measure.join(all, measure.one(&[*value]))
    })
}

// Joined in order, these values answer their plain aggregate.
fn joined_answer(kind: AnyMeasure, values: &[i32]) -> Answer
    requires { are_measured_rows values.now ≡ true }
    ensures { result ≡ plain kind values.now }
{
    // there are few enough: `as` is proved to lose nothing, and `try_from` would have a case that never comes
    kind.answer(joined(&kind, values), values.len() as u32)
}

// What the answer rests on: no grouping of the rows answers anything else.
fn five_kinds()
    ensures { FiveKinds }
{}

// The plain aggregate of at most 1,000,000 row values; nothing where one is no row value, or there are
// more. The second clause says of each kind what it answers for its rows in any grouping.
pub fn answer_over(kind: AnyMeasure, values: &[i32]) -> Option<Answer>
    ensures plain { result ≡ plain_of_rows kind values.now }
    ensures any_grouping { FiveKinds }
{
    five_kinds();
    if are_measured_rows(values) {
        Some(joined_answer(kind, values))
    } else {
        None
    }
}
