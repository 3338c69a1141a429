// Kind 4: the greatest value.
ghost use Rattle.std.specs.Int.{int_max};
ghost use Rattle.std.proofs.Common.{arith};
ghost use Rattle.std.proofs.lemmas.Int.{clamps, ints};

use crate::extreme::{Choice, Extreme};
use std::marker::PhantomData;

// The higher of two values.
#[derive(Clone, Copy)]
pub struct Higher;

impl Choice for Higher {
    const KIND: u8 = 4;

    ghost KIND = { 4 };

    ghost kept = { int_max };

    ghost kind_is_a_byte = { omega arith };

    ghost associates = { λ a b c. omega (arith, ints, clamps) };

    ghost commutes = { λ a b. omega (arith, ints, clamps) };

    ghost keeps_row_values = { λ a b p q. omega (arith, ints, clamps) };

    fn choose(a: i32, b: i32) -> i32 {
        a.max(b)
    }
}

pub type Greatest = Extreme<Higher>;

pub const GREATEST: Greatest = Extreme {
    choice: PhantomData,
};
