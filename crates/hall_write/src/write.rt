// The whole file.
ghost use Rattle.hall_file.specs.Written.{columns_bytes, file_bytes};
ghost use Rattle.hall_write.specs.Over.{HasRoom, Puts};
ghost use Rattle.hall_write.specs.Laid.{laid, content_of, WrittenInto};

use crate::length::{FileColumn, length_within};
use crate::put::{Out, head_bytes, put};
use cells::cell::Cell;
use hall_file::shape::ColumnShape;
use measures::measure::Measure;
use text::refusal::Refusal;

fn put_columns<M: Measure>(out: &mut Out, shapes: &[ColumnShape<M>], cells: &[Cell<M::Value>])
    requires { HasRoom (columns_bytes M.Measure.meaning (laid 0 shapes.now cells.now)) out.old }
    ensures { Puts (columns_bytes M.Measure.meaning (laid 0 shapes.now cells.now)) out.old out.new }
{
    for (number, shape) in shapes.iter().enumerate() {
        FileColumn { number, shape }.put_column(out, cells);
    }
}

// The file of these cells, written to the front of the buffer: answers its length; 14 where the buffer is
// too short. What is written stands in four arguments, since a struct of them would be made for this call alone.
pub fn write<M: Measure>(
    fields: u8,
    rows: u32,
    shapes: &[ColumnShape<M>],
    cells: &[Cell<M::Value>],
    buffer: &mut [u8],
) -> Result<usize, Refusal>
    ensures { WrittenInto (file_bytes M.Measure.meaning (content_of fields rows shapes.now cells.now)) buffer.old buffer.new result }
{
    let Some(length) = length_within(shapes, cells, buffer.len()) else {
        return Err(Refusal::BufferTooShort);
    };
    let mut out = Out { buffer, end: 0 };
    put(&mut out, &head_bytes(fields, shapes.len(), rows));
    put_columns(&mut out, shapes, cells);
    Ok(length)
}
