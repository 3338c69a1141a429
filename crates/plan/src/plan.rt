// What a plan is.
use conditions::condition::{Condition, FieldNames, MOST_FIELDS};
use words::names::Table;

// The most columns that a plan has.
pub const MOST_COLUMNS: usize = 8;

// The most fields of a base row.
pub const MOST_BASE: usize = 4;

// A column but for its name: its measure, the row field that is measured if there is one, the condition that a row must
// meet, and the row fields that the condition reads, which make up the column's key.
#[derive(Clone, Copy)]
pub struct Column<M> {
    pub measure: M,
    pub field: Option<u8>,
    pub condition: Condition,
    pub fields: [bool; MOST_FIELDS],
}

// Places for eight columns. In the plan itself, which holds a reference, they could not be read for every measure.
#[derive(Drop)]
pub struct Columns<M> {
    pub places: [Column<M>; MOST_COLUMNS],
}

// The names of the fields, and the names of the columns, each of which has the rest of it at the same place in
// `columns`. An array of structs that hold both a name, which is a reference, and a measure of any type could not be
// indexed, as a scan does; and this way the names of all three kinds are read and sought by the same calls.
#[derive(Drop)]
pub struct Plan<'a, M> {
    pub names: FieldNames<'a>,
    pub titles: Table<'a>,
    pub columns: Columns<M>,
}
