// The columns of a file, passed over one by one.
ghost use Rattle.std.specs.Prelude.{◌≡◌, ◌≤◌, None, IfSome};
ghost use Rattle.readers.specs.Readers.{after};
ghost use Rattle.readers.specs.Seen.{seen, passed};
ghost use Rattle.hall_file.specs.Written.{width as width_of};
ghost use Rattle.hall_file.specs.Reading.{shape as shape_reader, groups as groups_reader, column as column_reader, columns as columns_reader};

use crate::groups::{is_after, take_cell};
use crate::head::Head;
use crate::shape::{ColumnShape, is_mask, measured_of_byte};
use measures::measure::Measure;
use readers::take_u16;

// The shape at the front of bytes, and the bytes after it.
pub(crate) fn take_shape<M: Measure>(fields: u8, bytes: &[u8]) -> Option<(ColumnShape<M>, &[u8])>
    ensures read { seen result ≡ shape_reader M.Measure.meaning M.Measure.found fields bytes.now }
    ensures narrow { IfSome result (λ q. width_of q.0 ≤ 4) }
{
    let [kind, measured, mask, rest @ ..] = bytes else {
        return None;
    };
    let measure = M::of_kind(*kind)?;
    let measured = measured_of_byte(measure.fields(), fields, *measured)?;
    if !is_mask(fields, *mask) {
        return None;
    }
    let shape = ColumnShape {
        measure,
        measured,
        mask: *mask,
    };
    Some((shape, rest))
}

// The bytes after so many groups that have all rows together. That a key has four values at most is a premise
// here and in `take_cell`, and no type: a shape is public, and any mask can stand in it.
#[tactic(auto, using(crate::proofs::Steps::groups_more, crate::proofs::Steps::groups_no_group, crate::proofs::Steps::groups_no_order, crate::proofs::Steps::groups_end, crate::proofs::Steps::groups_not_all, crate::proofs::Steps::cell_was, crate::proofs::Steps::no_cell))]
fn take_groups<'a, M: Measure>(
    shape: &ColumnShape<M>,
    all: u32,
    count: u16,
    bytes: &'a [u8],
) -> Option<&'a [u8]>
    ensures { width_of shape.now ≤ 4 → passed result ≡ after (groups_reader M.Measure.meaning shape.now count None all bytes.now) }
{
    let mut rest = bytes;
    let mut last = None;
    let mut rows_left = all;
    for _ in 0..count {
        let (cell, more) = take_cell(0, shape, rows_left, rest)?;
        if !is_after(last, &cell.id.key) {
            return None;
        }
        rows_left -= cell.rows;
        last = Some(cell.id.key);
        rest = more;
    }
    if rows_left == 0 { Some(rest) } else { None }
}

#[tactic(auto, using(crate::proofs::Steps::column_no_shape, crate::proofs::Steps::column_no_count, crate::proofs::Steps::column_is))]
fn take_column<M: Measure>(head: Head, bytes: &[u8]) -> Option<&[u8]>
    ensures { passed result ≡ after (column_reader M.Measure.meaning M.Measure.found head.fields head.rows bytes.now) }
{
    let (shape, rest) = take_shape::<M>(head.fields, bytes)?;
    let (count, rest) = take_u16(rest)?;
    take_groups(&shape, head.rows, count, rest)
}

// The bytes after the columns of a head.
#[tactic(auto, using(readers::proofs::Steps::after_more), unfolding(crate::specs::Reading::columns))]
pub(crate) fn take_columns<M: Measure>(head: Head, bytes: &[u8]) -> Option<&[u8]>
    ensures { passed result ≡ after (columns_reader M.Measure.meaning M.Measure.found head bytes.now) }
{
    let mut rest = bytes;
    for _ in 0..head.columns {
        rest = take_column::<M>(head, rest)?;
    }
    Some(rest)
}
