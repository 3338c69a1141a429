// Where a reader of a condition stands: the words still to come, how many comparisons were read, and which row fields.
use crate::condition::{Condition, MOST_FIELDS};
use words::cursor::Words;

#[derive(Drop)]
pub struct Reader<'a> {
    pub words: Words<'a>,
    pub comparisons: usize,
    // how many of the fields are read, as the definition of what was seen has it: to count the flags anew is no plainer
    pub different: usize,
    pub fields: [bool; MOST_FIELDS],
}

// A condition that was read, and the row fields that it reads.
#[derive(Clone, Copy)]
pub struct Read {
    pub condition: Condition,
    pub fields: [bool; MOST_FIELDS],
}

// The keywords that join terms.
#[derive(Clone, Copy)]
pub enum Joint {
    And,
    Or,
    Not,
}

// How a term begins: with `not`, with a bracket, or with a comparison.
#[derive(Clone, Copy)]
pub enum Opening {
    Denial,
    Bracket,
    Plain,
}

// What may follow a term: `and`, `or`, a closing bracket, the line's end.
#[derive(Clone, Copy, PartialEq, Eq)]
pub enum Joining {
    And,
    Or,
    Close,
    End,
}
