// Names in a fixed table: words of the text itself.

// The most names that a table holds.
pub const MOST_NAMES: usize = 8;

// The first `used` of the places hold names; past eight there is no place.
// An array with a count beside it, since the type is public and `Copy`, which a list of the kit's `arrayvec` is not. A
// condition has the same form; the two are no one type, since their public fields have names of their own.
#[derive(Clone, Copy)]
pub struct Table<'a> {
    pub words: [&'a [u8]; MOST_NAMES],
    pub used: usize,
}
