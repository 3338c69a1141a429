// Kind 1: how many rows.
ghost use Rattle.measures.specs.Kinds.{count, only};
ghost use Rattle.measures.specs.Laws.{count_keeps, count_formed};
ghost use Rattle.std.proofs.Common.{rules};

use crate::answer::Answer;
use crate::bytes::{word_bytes, word_from};
use crate::measure::Measure;

#[derive(Clone, Copy)]
pub struct Count;

impl Measure for Count {
    type Value = u32;

    type Answer = Answer;

    ghost meaning = { λ _. count };

    ghost found = { only 1 (record {}) };

    ghost keeps = { λ _. count_keeps };

    ghost formed = { λ _. count_formed };

    ghost found_by_its_kind = { Prim.search rules };

    ghost has_the_kind_it_is_found_by = { Prim.search rules };

    fn of_kind(kind: u8) -> Option<Count> {
        if kind == 1 { Some(Count) } else { None }
    }

    fn kind(&self) -> u8 {
        1
    }

    fn fields(&self) -> usize {
        0
    }

    fn none(&self) -> u32 {
        0
    }

    fn one(&self, _values: &[i32]) -> u32 {
        1
    }

    fn join(&self, a: u32, b: u32) -> u32 {
        a.saturating_add(b)
    }

    fn possible(&self, a: u32, rows: u32) -> bool {
        a == rows
    }

    fn answer(&self, a: u32, _rows: u32) -> Answer {
        Answer::Number(i64::from(a))
    }

    fn write(&self, a: u32) -> [u8; 8] {
        word_bytes(u64::from(a))
    }

    fn read(&self, bytes: &[u8; 8]) -> Option<u32> {
        u32::try_from(word_from(bytes)).ok()
    }
}
