// Kind 2: the sum.
ghost use Rattle.measures.specs.declared.answer.Answer.TheVariants.{Number};
ghost use Rattle.std.proofs.Common.{arith};

use crate::adding::{Adding, Telling};
use crate::answer::Answer;
use std::marker::PhantomData;

// The sum as it is.
#[derive(Clone, Copy)]
pub struct Total;

impl Telling for Total {
    const KIND: u8 = 2;

    ghost KIND = { 2 };

    ghost told = { λ sum _. Number sum };

    ghost kind_is_a_byte = { omega arith };

    fn tell(sum: i64, _rows: u32) -> Answer {
        Answer::Number(sum)
    }
}

pub type Sum = Adding<Total>;

pub const SUM: Sum = Adding {
    telling: PhantomData,
};
