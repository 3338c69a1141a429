// The faults at which a feed can end, and where they lie.
ghost use Rattle.std.specs.Prelude.{◌≡◌, Some};
ghost use Rattle.feeds.specs.Faults.{published_fault, layer_name};

use std::fmt;
use text::refusal::Refusal;

// The part of the way of a row in which a fault lies.
#[derive(Clone, Copy, PartialEq, Eq, Debug)]
pub enum Layer {
    // the text of a sheet
    Sheet,
    // the tally that takes the rows
    Tally,
}

// As it is told.
impl fmt::Display for Layer {
    ghost output = { λ layer. Some (layer_name layer) };

    fn fmt<W: fmt::Write>(&self, f: &mut fmt::Formatter<W>) -> fmt::Result {
        match self {
            Layer::Sheet => write!(f, "sheet"),
            Layer::Tally => write!(f, "tally"),
        }
    }
}

// What ended a feed.
#[derive(Clone, Copy, PartialEq, Eq, Debug)]
pub enum Fault {
    // a line of a sheet breaks the form; lines count from 1
    BadLine { line: usize },
    // a tally refused a row; rows count from 1 as the feed gave them, and 0 is the feed itself: so it is published
    RefusedRow { refusal: Refusal, row: usize },
}

// A whole fault has no `Display`: each program words it in its own way.
impl Fault {
    // The published number of the refusal behind it. Code goes by the enum; only what is told has the number.
    pub fn number(&self) -> u8
        ensures { result ≡ (published_fault self.now).number }
    {
        match self {
            Fault::BadLine { .. } => 5,
            Fault::RefusedRow { refusal, .. } => refusal.number(),
        }
    }

    // Where it lies.
    pub fn layer(&self) -> Layer
        ensures { result ≡ (published_fault self.now).layer }
    {
        match self {
            Fault::BadLine { .. } => Layer::Sheet,
            Fault::RefusedRow { .. } => Layer::Tally,
        }
    }

    // The line or the row in which it lies.
    pub fn place(&self) -> usize
        ensures { result ≡ (published_fault self.now).place }
    {
        match self {
            Fault::BadLine { line } => *line,
            Fault::RefusedRow { row, .. } => *row,
        }
    }
}
