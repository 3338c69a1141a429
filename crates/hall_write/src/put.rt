// The parts of a file, each put after the part before it.
ghost use Rattle.std.specs.Prelude.{◌≡◌, ◌++◌, count_ones};
ghost use Rattle.measures.specs.Bytes.{bytes_of};
ghost use Rattle.cells.specs.Columns.{group, column};
ghost use Rattle.hall_file.specs.Written.{key_bytes, head_bytes as head_of, shape_bytes, group_bytes, groups_bytes, column_bytes};
ghost use Rattle.hall_write.specs.Over.{HasRoom, Puts};
ghost use Rattle.hall_write.specs.Laid.{cell_bytes};

use crate::length::{FileColumn, group_count, is_of};
use cells::cell::Cell;
use hall_file::head::VERSION;
use hall_file::shape::{ColumnShape, byte_of_measured, key_width};
use measures::measure::Measure;

// A buffer, and where the part of it that is written ends.
#[derive(Drop)]
pub(crate) struct Out<'a> {
    pub(crate) buffer: &'a mut [u8],
    pub(crate) end: usize,
}

// The bytes, put where there is room for them. The `put` of crate `text` may find no room, and answers so.
#[tactic(auto, using(crate::proofs::Overs::over_put))]
pub(crate) fn put(out: &mut Out, bytes: &[u8])
    requires { HasRoom bytes.now out.old }
    ensures { Puts bytes.now out.old out.new }
{
    let start = out.end;
    let end = start + bytes.len();
    let buffer = &mut *out.buffer;
    buffer[start..end].copy_from_slice(bytes);
    out.end = end;
}

// The values of a key that are written, one for each bit of the mask.
fn put_key(out: &mut Out, mask: u8, key: &[i32; 4])
    requires { HasRoom (key_bytes (count_ones mask) key.now) out.old }
    ensures { Puts (key_bytes (count_ones mask) key.now) out.old out.new }
{
    for value in &key[..key_width(mask)] {
        put(out, &value.to_le_bytes());
    }
}

// The group of a cell.
fn put_group<M: Measure>(out: &mut Out, shape: &ColumnShape<M>, cell: &Cell<M::Value>)
    requires { HasRoom (group_bytes M.Measure.meaning shape.now (group cell.now)) out.old }
    ensures { Puts (group_bytes M.Measure.meaning shape.now (group cell.now)) out.old out.new }
{
    put_key(out, shape.mask, &cell.id.key);
    put(out, &cell.rows.to_le_bytes());
    put(out, &shape.measure.write(cell.value));
}

// The bytes of a column before its groups; the number of groups is in the last two.
fn column_head<M: Measure>(shape: &ColumnShape<M>, count: usize) -> [u8; 5]
    ensures { result ≡ shape_bytes M.Measure.meaning shape.now ++ bytes_of 2 count }
{
    let [low, high, ..] = count.to_le_bytes();
    let measured = byte_of_measured(shape.measured);
    [shape.measure.kind(), measured, shape.mask, low, high]
}

impl<M: Measure> FileColumn<'_, M> {
    // The group of a cell, if it is of the column.
    #[tactic(auto, using(crate::proofs::Overs::puts_none))]
    fn put_cell(&self, out: &mut Out, cell: &Cell<M::Value>)
        requires { HasRoom (cell_bytes M.Measure.meaning self.now.number self.now.shape.now cell.now) out.old }
        ensures { Puts (cell_bytes M.Measure.meaning self.now.number self.now.shape.now cell.now) out.old out.new }
    {
        if is_of(cell, self.number) {
            put_group(out, self.shape, cell);
        }
    }

    // The groups of the column.
    fn put_groups(&self, out: &mut Out, cells: &[Cell<M::Value>])
        requires { HasRoom (groups_bytes M.Measure.meaning self.now.shape.now (column self.now.number cells.now)) out.old }
        ensures { Puts (groups_bytes M.Measure.meaning self.now.shape.now (column self.now.number cells.now)) out.old out.new }
    {
        for cell in cells {
            self.put_cell(out, cell);
        }
    }

    // The whole column.
    pub(crate) fn put_column(&self, out: &mut Out, cells: &[Cell<M::Value>])
        requires { HasRoom (column_bytes M.Measure.meaning (record { shape = self.now.shape.now; groups = column self.now.number cells.now })) out.old }
        ensures { Puts (column_bytes M.Measure.meaning (record { shape = self.now.shape.now; groups = column self.now.number cells.now })) out.old out.new }
    {
        put(
            out,
            &column_head(self.shape, group_count(cells, self.number)),
        );
        self.put_groups(out, cells);
    }
}

// The bytes of the head; one byte has the number of columns.
#[tactic(auto, using(crate::proofs::Overs::le_four))]
pub(crate) fn head_bytes(fields: u8, columns: usize, rows: u32) -> [u8; 11]
    ensures { result ≡ head_of fields columns rows }
{
    let [low, high] = VERSION.to_le_bytes();
    let [columns, ..] = columns.to_le_bytes();
    let [n0, n1, n2, n3] = rows.to_le_bytes();
    [b'T', b'L', b'Y', low, high, fields, columns, n0, n1, n2, n3]
}
