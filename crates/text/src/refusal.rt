// The refusals of the whole library: one enum, each case named by what it says.
ghost use Rattle.std.specs.Prelude.{◌≡◌, Some};
ghost use Rattle.text.specs.Refusals.{published, refusal_text};

use std::error::Error;
use std::fmt;

// Why a call refuses, with the place where there is one. Lines and words count from 1.
#[derive(Clone, Copy, PartialEq, Eq, Debug)]
pub enum Refusal {
    // a plan breaks the form
    PlanForm { line: usize, word: usize },
    // a name is used again or reserved
    NameTaken { line: usize, word: usize },
    // a field is not in the plan
    UnknownField { line: usize, word: usize },
    // a plan has too many bytes, names, columns, comparisons, fields read or levels
    PlanLimit { line: usize, word: usize },
    // a line of a sheet breaks the form
    SheetLine { line: usize },
    // a row has another width, or a value that is no row value
    NotARow,
    // a hall file is not well made
    FileForm,
    // a hall file has another shape
    FileShape,
    // there would be more than 1,000,000 rows
    TooManyRows,
    // a column number is not in the plan
    NoSuchColumn,
    // a base row has another width, or a value that is no row value
    NotABaseRow,
    // a hall file or a report is longer than the buffer
    BufferTooShort,
    // the width of a sheet or a list, or the field or value of a section, is out of range
    FeedRange,
}

impl Refusal {
    // The published number. Code goes by the enum; only what is told has the number.
    pub fn number(&self) -> u8
        ensures { result ≡ (published self.now).number }
    {
        match self {
            Refusal::PlanForm { .. } => 1,
            Refusal::NameTaken { .. } => 2,
            Refusal::UnknownField { .. } => 3,
            Refusal::PlanLimit { .. } => 4,
            Refusal::SheetLine { .. } => 5,
            Refusal::NotARow => 6,
            Refusal::FileForm => 7,
            Refusal::FileShape => 8,
            Refusal::TooManyRows => 9,
            Refusal::NoSuchColumn => 11,
            Refusal::NotABaseRow => 12,
            Refusal::BufferTooShort => 14,
            Refusal::FeedRange => 16,
        }
    }
}

// Its number and its place.
impl fmt::Display for Refusal {
    ghost output = { λ r. Some (refusal_text r) };

    fn fmt<W: fmt::Write>(&self, f: &mut fmt::Formatter<W>) -> fmt::Result {
        let number = self.number();
        match *self {
            Refusal::PlanForm { line, word }
            | Refusal::NameTaken { line, word }
            | Refusal::UnknownField { line, word }
            | Refusal::PlanLimit { line, word } => {
                write!(f, "number {number}, line {line}, word {word}")
            }
            Refusal::SheetLine { line } => write!(f, "number {number}, line {line}"),
            Refusal::NotARow
            | Refusal::FileForm
            | Refusal::FileShape
            | Refusal::TooManyRows
            | Refusal::NoSuchColumn
            | Refusal::NotABaseRow
            | Refusal::BufferTooShort
            | Refusal::FeedRange => write!(f, "number {number}"),
        }
    }
}

impl Error for Refusal {}
