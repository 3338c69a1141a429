// What the sum and the mean have in common: the values of the rows, added up.
ghost use Rattle.std.specs.Prelude.{◌≡◌, ℕ, ◌<◌, ℤ};
ghost use Rattle.measures.specs.Kinds.{only, adding, is_sum_of, total};
ghost use Rattle.measures.specs.Laws.{adding_keeps, adding_formed};
ghost use Rattle.measures.specs.declared.answer.Answer.{Answer as Answered};
ghost use Rattle.std.proofs.Common.{rules};

use crate::answer::Answer;
use crate::bytes::{word_bytes, word_from};
use crate::measure::Measure;
use crate::values::{GREATEST_VALUE, measured};
use std::marker::PhantomData;

// How a sum is answered, and the kind of the measure that answers so.
pub trait Telling: Copy {
    const KIND: u8;

    ghost KIND: { ℕ };

    ghost told: { ℤ → ℕ → Answered };

    fn tell(sum: i64, rows: u32) -> Answer
        ensures { result ≡ told sum rows };

    ghost kind_is_a_byte: { KIND < 256 };
}

// The measure that adds values up and answers their sum in a way of telling it.
#[derive(Clone, Copy)]
pub struct Adding<T> {
    pub telling: PhantomData<T>,
}

// Two sums added up; past 64 bits the sum stays at their end.
fn total(a: i64, b: i64) -> i64
    ensures { result ≡ total a b }
{
    a.saturating_add(b)
}

// Whether so many rows can have this sum.
fn is_sum_of(a: i64, rows: u32) -> bool
    ensures { result ≡ is_sum_of a rows }
{
    a.unsigned_abs() <= u64::from(GREATEST_VALUE) * u64::from(rows)
}

impl<T: Telling> Measure for Adding<T> {
    type Value = i64;

    type Answer = Answer;

    ghost meaning = { λ _. adding T.KIND T.told };

    ghost found = { only T.KIND (record { telling = record {} }) };

    ghost keeps = { λ _. adding_keeps T.KIND T.told };

    ghost formed = { λ _. adding_formed T.KIND T.told T.kind_is_a_byte };

    ghost found_by_its_kind = { Prim.search rules };

    ghost has_the_kind_it_is_found_by = { Prim.search rules };

    fn of_kind(kind: u8) -> Option<Adding<T>> {
        if kind == T::KIND {
            Some(Adding {
                telling: PhantomData,
            })
        } else {
            None
        }
    }

    fn kind(&self) -> u8 {
        T::KIND
    }

    fn fields(&self) -> usize {
        1
    }

    fn none(&self) -> i64 {
        0
    }

    fn one(&self, values: &[i32]) -> i64 {
        i64::from(measured(values))
    }

    fn join(&self, a: i64, b: i64) -> i64 {
        total(a, b)
    }

    fn possible(&self, a: i64, rows: u32) -> bool {
        is_sum_of(a, rows)
    }

    fn answer(&self, a: i64, rows: u32) -> Answer {
        T::tell(a, rows)
    }

    fn write(&self, a: i64) -> [u8; 8] {
        word_bytes(a.cast_unsigned())
    }

    fn read(&self, bytes: &[u8; 8]) -> Option<i64> {
        Some(word_from(bytes).cast_signed())
    }
}
