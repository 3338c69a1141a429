// One group of a column.
ghost use Rattle.std.specs.Prelude.{◌≡◌, ◌≤◌, length, IfSome};
ghost use Rattle.cells.specs.Order.{key_order};
ghost use Rattle.cells.specs.Columns.{cell_of};
ghost use Rattle.readers.specs.Readers.{changed, times};
ghost use Rattle.readers.specs.Seen.{seen, filled};
ghost use Rattle.hall_file.specs.Written.{width as width_of};
ghost use Rattle.hall_file.specs.Rules.{is_after as comes_after};
ghost use Rattle.hall_file.specs.Reading.{int, key as key_reader, fits as fit, rows as rows_reader, value as value_reader, group as group_reader};

use crate::shape::{ColumnShape, key_width};
use cells::cell::Cell;
use cells::id::GroupId;
use measures::measure::Measure;
use measures::values::is_row_value;
use readers::take_u32;
use std::cmp::Ordering;

#[tactic(auto, using(crate::proofs::Steps::as_shown, readers::proofs::Steps::kept_yes, readers::proofs::Steps::kept_no), unfolding(crate::specs::Reading::int))]
fn take_int(bytes: &[u8]) -> Option<(i32, &[u8])>
    ensures { seen result ≡ int bytes.now }
{
    let (word, rest) = take_u32(bytes)?;
    let value = word.cast_signed();
    if is_row_value(value) {
        Some((value, rest))
    } else {
        None
    }
}

// Fills places with values from the front of bytes; the bytes after them.
fn fill<'a>(places: &mut [i32], bytes: &'a [u8]) -> Option<&'a [u8]>
    ensures { filled places.new result ≡ times (length places.old) int bytes.now }
{
    let mut rest = bytes;
    for place in places.iter_mut() {
        let (value, more) = take_int(rest)?;
        *place = value;
        rest = more;
    }
    Some(rest)
}

// A key of so many fields; its other places are 0.
fn take_key(width: usize, bytes: &[u8]) -> Option<([i32; 4], &[u8])>
    requires { width ≤ 4 }
    ensures { seen result ≡ key_reader width bytes.now }
{
    let mut key = [0; 4];
    let rest = fill(&mut key[..width], bytes)?;
    Some((key, rest))
}

// Field by field, as signed numbers.
fn key_order(a: &[i32; 4], b: &[i32; 4]) -> Ordering
    ensures { result ≡ key_order a.now b.now }
{
    a.cmp(b)
}

// Whether a key comes after the one before it, if there is one.
pub(crate) fn is_after(last: Option<[i32; 4]>, key: &[i32; 4]) -> bool
    ensures { result ≡ comes_after last key.now }
{
    match last {
        None => true,
        Some(last) => key_order(&last, key).is_lt(),
    }
}

// Whether so many rows are some, and no more than are left.
fn fits(left: u32, rows: u32) -> bool
    ensures { result ≡ fit left rows }
{
    (1..=left).contains(&rows)
}

#[tactic(auto, using(readers::proofs::Steps::kept_yes, readers::proofs::Steps::kept_no), unfolding(crate::specs::Reading::rows))]
fn take_rows(left: u32, bytes: &[u8]) -> Option<(u32, &[u8])>
    ensures read { seen result ≡ rows_reader left bytes.now }
    ensures few { IfSome result (λ q. q.0 ≤ left) }
{
    let (rows, rest) = take_u32(bytes)?;
    if fits(left, rows) {
        Some((rows, rest))
    } else {
        None
    }
}

fn take_value<'a, M: Measure>(
    measure: &M,
    rows: u32,
    bytes: &'a [u8],
) -> Option<(M::Value, &'a [u8])>
    ensures { seen result ≡ value_reader (M.Measure.meaning measure.now) rows bytes.now }
{
    let (word, rest) = bytes.split_first_chunk::<8>()?;
    let value = measure.read(word)?;
    if measure.possible(value, rows) {
        Some((value, rest))
    } else {
        None
    }
}

// The group at the front of bytes, as a cell of the column with this number, and the bytes after it.
#[tactic(auto, using(crate::proofs::Steps::group_no_key, crate::proofs::Steps::group_no_rows, crate::proofs::Steps::group_no_value, crate::proofs::Steps::group_is))]
pub(crate) fn take_cell<'a, M: Measure>(
    column: u8,
    shape: &ColumnShape<M>,
    left: u32,
    bytes: &'a [u8],
) -> Option<(Cell<M::Value>, &'a [u8])>
    ensures few { IfSome result (λ q. q.0.rows ≤ left) }
    ensures read { width_of shape.now ≤ 4 → seen result ≡ changed (cell_of column) (group_reader M.Measure.meaning shape.now left bytes.now) }
{
    let (key, rest) = take_key(key_width(shape.mask), bytes)?;
    let (rows, rest) = take_rows(left, rest)?;
    let (value, rest) = take_value(&shape.measure, rows, rest)?;
    Some((
        Cell {
            id: GroupId { column, key },
            rows,
            value,
        },
        rest,
    ))
}
