// What a condition says of a row and a base row.
ghost use Rattle.std.specs.Prelude.{◌≡◌, ◌+◌, ◌<◌, ◌≤◌, ◌∷◌, IfSome, IfNone};
ghost use Rattle.conditions.specs.Postfix.{asked, trees};
ghost use Rattle.conditions.specs.Meaning.{moved, amount, compares, compared, says, judge, stacked};
ghost use Rattle.arrayvec.specs.ArrayVec.{array_vec_len};

use crate::condition::{Comparison, Condition, MOST_STEPS, Operand, Shift, Step};
use arrayvec::ArrayVec;
use measures::values::value_at;
use words::signs::Sign;

// A value with what is added to it.
fn moved_by(value: i32, by: Shift) -> i64
    ensures { result ≡ moved value by }
{
    match by {
        Shift::Bare => i64::from(value),
        Shift::Plus(n) => i64::from(value) + i64::from(n),
        Shift::Minus(n) => i64::from(value) - i64::from(n),
    }
}

// An operand's value. The row and the base row stand side by side here and below, as they do in the definition of what
// a condition says, and as a caller has them: a struct of the two would be made to be taken apart.
fn amount_of(operand: Operand, row: &[i32], base: &[i32]) -> i64
    ensures { result ≡ amount row.now base.now operand }
{
    match operand {
        Operand::Number(z) => i64::from(z),
        Operand::Row(field, by) => moved_by(value_at(row, usize::from(field)), by),
        Operand::Base(field, by) => moved_by(value_at(base, usize::from(field)), by),
    }
}

// Whether two values stand as a sign says.
fn stand(sign: Sign, a: i64, b: i64) -> bool
    ensures { result ≡ compares sign a b }
{
    match sign {
        Sign::Equal => a == b,
        Sign::Unequal => a != b,
        Sign::Less => a < b,
        Sign::AtMost => a <= b,
        Sign::Greater => a > b,
        Sign::AtLeast => a >= b,
    }
}

// Whether a comparison is true: the one place where comparisons are evaluated.
fn is_true(comparison: Comparison, row: &[i32], base: &[i32]) -> bool
    ensures { result ≡ compared row.now base.now comparison }
{
    stand(
        comparison.sign,
        amount_of(comparison.left, row, base),
        amount_of(comparison.right, row, base),
    )
}

// The two topmost truths, taken off; where there are not two, nothing is.
fn take_two(truths: &mut ArrayVec<bool, MOST_STEPS>) -> Option<(bool, bool)>
    ensures two { IfSome result (λ p. stacked truths.old ≡ p.1 ∷ p.0 ∷ stacked truths.new) }
    ensures few { IfNone result ((truths.new ≡ truths.old) × (array_vec_len truths.old < 2)) }
{
    if truths.len() < 2 {
        return None;
    }
    let b = truths.pop()?;
    let a = truths.pop()?;
    Some((a, b))
}

// One step of a condition, on the truths of the terms that are not yet joined, the last on top.
fn judge(truths: &mut ArrayVec<bool, MOST_STEPS>, step: Step, row: &[i32], base: &[i32])
    requires { array_vec_len truths.old < 159 }
    ensures stacked { stacked truths.new ≡ judge row.now base.now step (stacked truths.old) }
    ensures high { array_vec_len truths.new ≤ array_vec_len truths.old + 1 }
{
    match step {
        Step::Compare(k) => truths.push(is_true(k, row, base)),
        Step::Not => {
            if let Some(top) = truths.pop() {
                truths.push(!top);
            }
        }
        Step::Bracket => {}
        Step::And => {
            if let Some((a, b)) = take_two(truths) {
                truths.push(a & b);
            }
        }
        Step::Or => {
            if let Some((a, b)) = take_two(truths) {
                truths.push(a | b);
            }
        }
    }
}

impl Condition {
    // Whether a row and a base row meet it; a field that one lacks reads as 0.
    pub fn holds(&self, row: &[i32], base: &[i32]) -> bool
        ensures { result ≡ says (asked (trees self.now)) row.now base.now }
    {
        let mut truths = ArrayVec::new();
        for step in &self.steps[..self.used.min(MOST_STEPS)] {
            judge(&mut truths, *step, row, base);
        }
        truths.pop().unwrap_or(true)
    }
}
