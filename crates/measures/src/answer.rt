// What a measure answers.
ghost use Rattle.std.specs.Prelude.{Some};
ghost use Rattle.measures.specs.Answers.{shown as answer_text};

use std::fmt;

#[derive(Clone, Copy, PartialEq, Eq, Debug)]
pub enum Answer {
    // a count, a sum, a least or a greatest value
    Number(i64),
    // a mean, as the sum and the number of its rows, so that means of parts are never averaged
    Mean { sum: i64, rows: u32 },
    // no value, for want of rows
    NoRows,
}

// As a standing shows it.
impl fmt::Display for Answer {
    ghost output = { λ a. Some (answer_text a) };

    fn fmt<W: fmt::Write>(&self, f: &mut fmt::Formatter<W>) -> fmt::Result {
        match *self {
            Answer::Number(number) => write!(f, "{number}"),
            Answer::Mean { sum, rows } => write!(f, "{sum}/{rows}"),
            Answer::NoRows => write!(f, "-"),
        }
    }
}
