// Kind 3: the least value.
ghost use Rattle.std.specs.Int.{int_min};
ghost use Rattle.std.proofs.Common.{arith};
ghost use Rattle.std.proofs.lemmas.Int.{clamps, ints};

use crate::extreme::{Choice, Extreme};
use std::marker::PhantomData;

// The lower of two values.
#[derive(Clone, Copy)]
pub struct Lower;

impl Choice for Lower {
    const KIND: u8 = 3;

    ghost KIND = { 3 };

    ghost kept = { int_min };

    ghost kind_is_a_byte = { omega arith };

    ghost associates = { λ a b c. omega (arith, ints, clamps) };

    ghost commutes = { λ a b. omega (arith, ints, clamps) };

    ghost keeps_row_values = { λ a b p q. omega (arith, ints, clamps) };

    fn choose(a: i32, b: i32) -> i32 {
        a.min(b)
    }
}

pub type Least = Extreme<Lower>;

pub const LEAST: Least = Extreme {
    choice: PhantomData,
};
