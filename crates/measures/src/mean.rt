// Kind 5: the mean, kept as a sum and told as sum and row count.
ghost use Rattle.measures.specs.Kinds.{mean_of};
ghost use Rattle.std.proofs.Common.{arith};

use crate::adding::{Adding, Telling};
use crate::answer::Answer;
use std::marker::PhantomData;

// The sum and the row count, where there are rows.
#[derive(Clone, Copy)]
pub struct Average;

impl Telling for Average {
    const KIND: u8 = 5;

    ghost KIND = { 5 };

    ghost told = { mean_of };

    ghost kind_is_a_byte = { omega arith };

    fn tell(sum: i64, rows: u32) -> Answer {
        if rows == 0 {
            Answer::NoRows
        } else {
            Answer::Mean { sum, rows }
        }
    }
}

pub type Mean = Adding<Average>;

pub const MEAN: Mean = Adding {
    telling: PhantomData,
};
