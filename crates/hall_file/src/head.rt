// The head of a file.
ghost use Rattle.std.specs.Prelude.{◌≡◌, ◌+◌, ◌*◌, ◌==◌, nat_le};
ghost use Rattle.measures.specs.Values.{most_rows};
ghost use Rattle.readers.specs.Seen.{seen};
ghost use Rattle.hall_file.specs.Written.{version};
ghost use Rattle.hall_file.specs.Reading.{one_to, head as head_reader};

use measures::values::MOST_ROWS;

// The version that is written and read.
pub const VERSION: u16 = 1;

// The most row fields.
pub const MOST_FIELDS: u8 = 8;

// The most columns.
pub const MOST_COLUMNS: u8 = 8;

// What the head says: the number of row fields, the number of columns, and the row count.
#[derive(Clone, Copy)]
pub struct Head {
    pub fields: u8,
    pub columns: u8,
    pub rows: u32,
}

fn is_version(low: u8, high: u8) -> bool
    ensures { result ≡ (low + high * 256 == version) }
{
    u16::from_le_bytes([low, high]) == VERSION
}

// Whether a number is from 1 to the most.
fn is_one_to(most: u8, n: u8) -> bool
    ensures { result ≡ one_to most n }
{
    (1..=most).contains(&n)
}

fn is_row_count(rows: u32) -> bool
    ensures { result ≡ nat_le rows most_rows }
{
    rows <= MOST_ROWS
}

// The head at the front of bytes, and the bytes after it.
pub(crate) fn take_head(bytes: &[u8]) -> Option<(Head, &[u8])>
    ensures { seen result ≡ head_reader bytes.now }
{
    let [
        b'T',
        b'L',
        b'Y',
        low,
        high,
        fields,
        columns,
        n0,
        n1,
        n2,
        n3,
        rest @ ..,
    ] = bytes
    else {
        return None;
    };
    if !is_version(*low, *high) {
        return None;
    }
    if !is_one_to(MOST_FIELDS, *fields) {
        return None;
    }
    if !is_one_to(MOST_COLUMNS, *columns) {
        return None;
    }
    let rows = u32::from_le_bytes([*n0, *n1, *n2, *n3]);
    if !is_row_count(rows) {
        return None;
    }
    let head = Head {
        fields: *fields,
        columns: *columns,
        rows,
    };
    Some((head, rest))
}
