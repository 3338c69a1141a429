// A condition: its steps in the order in which they are taken, in a fixed array.
use words::names::Table;
use words::signs::Sign;

// The most fields that a row has.
pub const MOST_FIELDS: usize = 8;

// The most comparisons of a condition.
pub const MOST_COMPARISONS: usize = 16;

// The most different row fields that a condition reads.
pub const MOST_READ: usize = 4;

// How deep brackets and `not` nest, each counting one level.
pub const DEEPEST: u8 = 8;

// 16 comparisons, 15 joints between them, and around each comparison at most eight `not` or brackets.
pub const MOST_STEPS: usize = 159;

// What is added to a field.
#[derive(Clone, Copy)]
pub enum Shift {
    Bare,
    Plus(u32),
    Minus(u32),
}

// A side of a comparison: a number, or a field of the row or of the base row and what is added to it.
#[derive(Clone, Copy)]
pub enum Operand {
    Number(i32),
    Row(u8, Shift),
    Base(u8, Shift),
}

#[derive(Clone, Copy)]
pub struct Comparison {
    pub left: Operand,
    pub sign: Sign,
    pub right: Operand,
}

// Steps are read from text, copied and told apart, so they are an enum and no closures.
// A comparison goes onto a stack; `not` turns the top, a bracket leaves it, `and` and `or` join the two topmost.
#[derive(Clone, Copy)]
pub enum Step {
    Compare(Comparison),
    Not,
    Bracket,
    And,
    Or,
}

// The first `used` places hold its steps; past 159 there is no place. With no step it is always true.
// An array with a count beside it, since it is copied: an `ArrayVec` is not.
#[derive(Clone, Copy)]
pub struct Condition {
    pub steps: [Step; MOST_STEPS],
    pub used: usize,
}

// The names of the fields of a row and of a base row.
#[derive(Clone, Copy)]
pub struct FieldNames<'n> {
    pub rows: Table<'n>,
    pub base: Table<'n>,
}

// What the first word of an operand is: a number, or a field.
#[derive(Clone, Copy)]
pub enum Found {
    Value(i32),
    RowField(u8),
    BaseField(u8),
}
