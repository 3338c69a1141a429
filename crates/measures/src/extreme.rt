// What the least and the greatest value have in common: a value of some rows, none of no rows.
ghost use Rattle.std.specs.Prelude.{◌≡◌, ℕ, ◌<◌, ℤ};
ghost use Rattle.measures.specs.Values.{RowValue};
ghost use Rattle.measures.specs.Kinds.{only, extreme, is_extreme_of, extreme_answer, extreme_bytes, extreme_read};
ghost use Rattle.measures.specs.Laws.{extreme_keeps, extreme_formed};
ghost use Rattle.std.proofs.Common.{rules};

use crate::answer::Answer;
use crate::bytes::{word_bytes, word_from};
use crate::measure::Measure;
use crate::values::{is_row_value, measured};
use std::marker::PhantomData;

// Which of two values is kept, and the kind of the measure that keeps it.
pub trait Choice: Copy {
    const KIND: u8;

    ghost KIND: { ℕ };

    ghost kept: { ℤ → ℤ → ℤ };

    fn choose(a: i32, b: i32) -> i32
        ensures { result ≡ kept a b };

    ghost kind_is_a_byte: { KIND < 256 };

    ghost associates: { (a b c : ℤ) → kept (kept a b) c ≡ kept a (kept b c) };

    ghost commutes: { (a b : ℤ) → kept a b ≡ kept b a };

    ghost keeps_row_values: { (a b : ℤ) → RowValue a → RowValue b → RowValue (kept a b) };
}

// The measure that keeps the value of a choice.
#[derive(Clone, Copy)]
pub struct Extreme<C> {
    pub choice: PhantomData<C>,
}

// Whether so many rows can have this value.
fn is_extreme_of(a: Option<i32>, rows: u32) -> bool
    ensures { result ≡ is_extreme_of a rows }
{
    match a {
        None => rows == 0,
        Some(x) => 1 <= rows && is_row_value(x),
    }
}

fn extreme_answer(a: Option<i32>) -> Answer
    ensures { result ≡ extreme_answer a }
{
    match a {
        None => Answer::NoRows,
        Some(x) => Answer::Number(i64::from(x)),
    }
}

// The value in two's complement; zero where there is none.
fn extreme_bytes(a: Option<i32>) -> [u8; 8]
    ensures { result ≡ extreme_bytes a }
{
    match a {
        None => [0; 8],
        Some(x) => word_bytes(i64::from(x).cast_unsigned()),
    }
}

// The row value that eight bytes hold, if they hold one.
fn extreme_read(bytes: &[u8; 8]) -> Option<Option<i32>>
    ensures { result ≡ extreme_read bytes.now }
{
    match i32::try_from(word_from(bytes).cast_signed()) {
        Ok(value) if is_row_value(value) => Some(Some(value)),
        _ => None,
    }
}

impl<C: Choice> Measure for Extreme<C> {
    type Value = Option<i32>;

    type Answer = Answer;

    ghost meaning = { λ _. extreme C.KIND C.kept };

    ghost found = { only C.KIND (record { choice = record {} }) };

    ghost keeps = { λ _. extreme_keeps C.KIND C.kept C.associates C.commutes C.keeps_row_values };

    ghost formed = { λ _. extreme_formed C.KIND C.kept C.kind_is_a_byte };

    ghost found_by_its_kind = { Prim.search rules };

    ghost has_the_kind_it_is_found_by = { Prim.search rules };

    fn of_kind(kind: u8) -> Option<Extreme<C>> {
        if kind == C::KIND {
            Some(Extreme {
                choice: PhantomData,
            })
        } else {
            None
        }
    }

    fn kind(&self) -> u8 {
        C::KIND
    }

    fn fields(&self) -> usize {
        1
    }

    fn none(&self) -> Option<i32> {
        None
    }

    fn one(&self, values: &[i32]) -> Option<i32> {
        Some(measured(values))
    }

    fn join(&self, a: Option<i32>, b: Option<i32>) -> Option<i32> {
        match (a, b) {
            (None, _) => b,
            (Some(_), None) => a,
            (Some(x), Some(y)) => Some(C::choose(x, y)),
        }
    }

    fn possible(&self, a: Option<i32>, rows: u32) -> bool {
        is_extreme_of(a, rows)
    }

    fn answer(&self, a: Option<i32>, _rows: u32) -> Answer {
        extreme_answer(a)
    }

    fn write(&self, a: Option<i32>) -> [u8; 8] {
        extreme_bytes(a)
    }

    fn read(&self, bytes: &[u8; 8]) -> Option<Option<i32>> {
        extreme_read(bytes)
    }
}
