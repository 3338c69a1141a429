// Reads a plan.
ghost use Rattle.std.specs.Prelude.{◌≡◌};
ghost use Rattle.plan.specs.Machine.{plan_of};
ghost use Rattle.plan.specs.Promises.{meant};

use crate::lines::{BASE_NAMES, ROW_NAMES, read_column};
use crate::plan::Plan;
use crate::words_of_plan::{Leading, leading_of};
use any_measure::any::AnyMeasure;
use conditions::wrong::Wrong;
use text::refusal::Refusal;
use words::cursor::{MOST_BYTES, Words};

// What the reader waits for: the rows line, the base line, or a column line.
#[derive(Clone, Copy)]
pub enum Awaits {
    Rows,
    Base,
    Columns,
}

// The plan that a text is, or the refusal of its first bad word.
pub fn read_plan(text: &[u8]) -> Result<Plan<'_, AnyMeasure>, Refusal>
    ensures { meant result ≡ plan_of text.now }
{
    // line 0, word 0 is the text as a whole: so it is published
    if text.len() > MOST_BYTES {
        return Err(Refusal::PlanLimit { line: 0, word: 0 });
    }
    let mut words = Words::of(text);
    let mut plan = Plan::empty(text);
    let mut awaits = Awaits::Rows;
    while !words.is_done() {
        match (awaits, leading_of(words.peek())) {
            (Awaits::Rows, Some(Leading::Rows)) => {
                words.advance();
                ROW_NAMES.read_names(&mut words, &mut plan.names.rows)?;
                awaits = Awaits::Base;
            }
            (Awaits::Base, Some(Leading::Base)) => {
                words.advance();
                BASE_NAMES.read_names(&mut words, &mut plan.names.base)?;
                awaits = Awaits::Columns;
            }
            (Awaits::Columns, _) => read_column(&mut words, &mut plan)?,
            _ => return Err(Wrong::Form.at(&words)),
        }
    }
    if plan.len() == 0 {
        return Err(Wrong::Form.at(&words));
    }
    Ok(plan)
}
