// One of the five kinds, picked at run time: what a column of a plan holds.
ghost use Rattle.any_measure.specs.Chosen.{chosen, by_kind, rows_in, total_in, extreme_in};
ghost use Rattle.std.specs.Prelude.{refl};
ghost use Rattle.measures.specs.Kinds;
ghost use Rattle.measures.specs.Kinds.{mean_of};
ghost use Rattle.measures.specs.declared.answer.Answer.TheVariants.{NoRows, Number};
ghost use Rattle.any_measure.specs.declared.any.AnyMeasure.TheVariants.{Count, Sum, Least, Greatest, Mean};
ghost use Rattle.any_measure.specs.declared.any.AnyValue.TheVariants.{Rows, Total, Extreme};
ghost use Rattle.measures.specs.Laws.{count_keeps, adding_keeps, least_keeps, greatest_keeps, count_formed, adding_formed, least_formed, greatest_formed};
ghost use Rattle.any_measure.specs.Lifts.{lifted_keeps, lifted_formed};
ghost use Rattle.any_measure.specs.Wraps.{is_rows, is_total, is_extreme};
ghost use Rattle.std.proofs.Common.{arith, rules};

use measures::answer::Answer;
use measures::count::Count;
use measures::greatest::GREATEST;
use measures::least::LEAST;
use measures::mean::MEAN;
use measures::measure::Measure;
use measures::sum::SUM;

#[derive(Clone, Copy, PartialEq, Eq, Debug)]
pub enum AnyMeasure {
    Count,
    Sum,
    Least,
    Greatest,
    Mean,
}

// A value of any of the five: a mean's is its sum.
#[derive(Clone, Copy, PartialEq, Eq, Debug)]
pub enum AnyValue {
    Rows(u32),
    Total(i64),
    Extreme(Option<i32>),
}

// Each method goes by the kind: the five have values of three types, so that no `dyn` can stand for them all.
impl Measure for AnyMeasure {
    type Value = AnyValue;

    type Answer = Answer;

    ghost meaning = { chosen };

    ghost found = { by_kind };

    ghost keeps = { elim [
      | Count ↦ lifted_keeps Rows rows_in NoRows (λ _. refl) is_rows Kinds.count count_keeps
      | Sum ↦ lifted_keeps Total total_in NoRows (λ _. refl) is_total Kinds.sum (adding_keeps 2 (λ a _. Number a))
      | Least ↦ lifted_keeps Extreme extreme_in NoRows (λ _. refl) is_extreme Kinds.least least_keeps
      | Greatest ↦ lifted_keeps Extreme extreme_in NoRows (λ _. refl) is_extreme Kinds.greatest greatest_keeps
      | Mean ↦ lifted_keeps Total total_in NoRows (λ _. refl) is_total Kinds.mean (adding_keeps 5 mean_of)
    ] };

    ghost formed = { elim [
      | Count ↦ lifted_formed Rows rows_in NoRows Kinds.count count_formed
      | Sum ↦ lifted_formed Total total_in NoRows Kinds.sum (adding_formed 2 (λ a _. Number a) (omega arith))
      | Least ↦ lifted_formed Extreme extreme_in NoRows Kinds.least least_formed
      | Greatest ↦ lifted_formed Extreme extreme_in NoRows Kinds.greatest greatest_formed
      | Mean ↦ lifted_formed Total total_in NoRows Kinds.mean (adding_formed 5 mean_of (omega arith))
    ] };

    ghost found_by_its_kind = { Prim.search rules };

    ghost has_the_kind_it_is_found_by = { Prim.search rules };

    fn of_kind(kind: u8) -> Option<AnyMeasure> {
        match kind {
            1 => Some(AnyMeasure::Count),
            2 => Some(AnyMeasure::Sum),
            3 => Some(AnyMeasure::Least),
            4 => Some(AnyMeasure::Greatest),
            5 => Some(AnyMeasure::Mean),
            _ => None,
        }
    }

    fn kind(&self) -> u8 {
        match *self {
            AnyMeasure::Count => Count.kind(),
            AnyMeasure::Sum => SUM.kind(),
            AnyMeasure::Least => LEAST.kind(),
            AnyMeasure::Greatest => GREATEST.kind(),
            AnyMeasure::Mean => MEAN.kind(),
        }
    }

    fn fields(&self) -> usize {
        match *self {
            AnyMeasure::Count => Count.fields(),
            AnyMeasure::Sum => SUM.fields(),
            AnyMeasure::Least => LEAST.fields(),
            AnyMeasure::Greatest => GREATEST.fields(),
            AnyMeasure::Mean => MEAN.fields(),
        }
    }

    fn none(&self) -> AnyValue {
        match *self {
            AnyMeasure::Count => AnyValue::Rows(Count.none()),
            AnyMeasure::Sum => AnyValue::Total(SUM.none()),
            AnyMeasure::Least => AnyValue::Extreme(LEAST.none()),
            AnyMeasure::Greatest => AnyValue::Extreme(GREATEST.none()),
            AnyMeasure::Mean => AnyValue::Total(MEAN.none()),
        }
    }

    fn one(&self, values: &[i32]) -> AnyValue {
        match *self {
            AnyMeasure::Count => AnyValue::Rows(Count.one(values)),
            AnyMeasure::Sum => AnyValue::Total(SUM.one(values)),
            AnyMeasure::Least => AnyValue::Extreme(LEAST.one(values)),
            AnyMeasure::Greatest => AnyValue::Extreme(GREATEST.one(values)),
            AnyMeasure::Mean => AnyValue::Total(MEAN.one(values)),
        }
    }

    // A value of another measure is possible for no rows; joined with one, the second is kept.
    fn join(&self, a: AnyValue, b: AnyValue) -> AnyValue {
        match (*self, a, b) {
            (AnyMeasure::Count, AnyValue::Rows(x), AnyValue::Rows(y)) => AnyValue::Rows(Count.join(
                x, y,
            )),
            (AnyMeasure::Sum, AnyValue::Total(x), AnyValue::Total(y)) => AnyValue::Total(SUM.join(
                x, y,
            )),
            (AnyMeasure::Least, AnyValue::Extreme(x), AnyValue::Extreme(y)) => AnyValue::Extreme(
                LEAST.join(x, y),
            ),
            (AnyMeasure::Greatest, AnyValue::Extreme(x), AnyValue::Extreme(y)) => AnyValue::Extreme(
                GREATEST.join(x, y),
            ),
            (AnyMeasure::Mean, AnyValue::Total(x), AnyValue::Total(y)) => AnyValue::Total(MEAN.join(
                x, y,
            )),
            _ => b,
        }
    }

    fn possible(&self, a: AnyValue, rows: u32) -> bool {
        match (*self, a) {
            (AnyMeasure::Count, AnyValue::Rows(x)) => Count.possible(x, rows),
            (AnyMeasure::Sum, AnyValue::Total(x)) => SUM.possible(x, rows),
            (AnyMeasure::Least, AnyValue::Extreme(x)) => LEAST.possible(x, rows),
            (AnyMeasure::Greatest, AnyValue::Extreme(x)) => GREATEST.possible(x, rows),
            (AnyMeasure::Mean, AnyValue::Total(x)) => MEAN.possible(x, rows),
            _ => false,
        }
    }

    fn answer(&self, a: AnyValue, rows: u32) -> Answer {
        match (*self, a) {
            (AnyMeasure::Count, AnyValue::Rows(x)) => Count.answer(x, rows),
            (AnyMeasure::Sum, AnyValue::Total(x)) => SUM.answer(x, rows),
            (AnyMeasure::Least, AnyValue::Extreme(x)) => LEAST.answer(x, rows),
            (AnyMeasure::Greatest, AnyValue::Extreme(x)) => GREATEST.answer(x, rows),
            (AnyMeasure::Mean, AnyValue::Total(x)) => MEAN.answer(x, rows),
            _ => Answer::NoRows,
        }
    }

    fn write(&self, a: AnyValue) -> [u8; 8] {
        match (*self, a) {
            (AnyMeasure::Count, AnyValue::Rows(x)) => Count.write(x),
            (AnyMeasure::Sum, AnyValue::Total(x)) => SUM.write(x),
            (AnyMeasure::Least, AnyValue::Extreme(x)) => LEAST.write(x),
            (AnyMeasure::Greatest, AnyValue::Extreme(x)) => GREATEST.write(x),
            (AnyMeasure::Mean, AnyValue::Total(x)) => MEAN.write(x),
            _ => [0; 8],
        }
    }

    fn read(&self, bytes: &[u8; 8]) -> Option<AnyValue> {
        Some(match *self {
            AnyMeasure::Count => AnyValue::Rows(Count.read(bytes)?),
            AnyMeasure::Sum => AnyValue::Total(SUM.read(bytes)?),
            AnyMeasure::Least => AnyValue::Extreme(LEAST.read(bytes)?),
            AnyMeasure::Greatest => AnyValue::Extreme(GREATEST.read(bytes)?),
            AnyMeasure::Mean => AnyValue::Total(MEAN.read(bytes)?),
        })
    }
}
