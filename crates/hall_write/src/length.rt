// The length of a file before it is written.
ghost use Rattle.std.specs.Prelude.{◌≡◌, ℕ, ◌+◌, length, count_ones, nat_eq};
ghost use Rattle.cells.specs.Columns.{column};
ghost use Rattle.hall_file.specs.Written.{key_bytes, groups_bytes, file_bytes};
ghost use Rattle.hall_write.specs.Laid.{content_of, cell_bytes, Within, LeftOf};

use cells::cell::Cell;
use hall_file::shape::{ColumnShape, group_length};
use measures::measure::Measure;

// The length of the head.
const HEAD_LENGTH: usize = 11;

// The length of a column before its groups.
const COLUMN_HEAD_LENGTH: usize = 5;

// Whether a cell is of the column with this number.
pub(crate) fn is_of<V>(cell: &Cell<V>, number: usize) -> bool
    ensures { result ≡ nat_eq cell.now.id.column number }
{
    usize::from(cell.id.column) == number
}

// How many of the cells are of the column with this number. One for each is added up, and none is tested: where columns
// are mixed, a branch for each cell would take several times as long.
pub fn group_count<V>(cells: &[Cell<V>], number: usize) -> usize
    ensures { result ≡ length (column number cells.now) }
{
    let mut count = 0;
    for cell in cells {
        count += usize::from(is_of(cell, number));
    }
    count
}

// How many bytes a group with this key has. They go by the mask alone: that a key has four places is in its type.
#[tactic(auto, using(hall_file::proofs::Looks::key_length))]
fn keyed_length(mask: u8, _key: &[i32; 4]) -> usize
    ensures { result ≡ length (key_bytes (count_ones mask) _key.now) + 12 }
{
    group_length(mask)
}

// A column of a file: its number, and its shape.
#[derive(Clone, Copy)]
pub(crate) struct FileColumn<'a, M> {
    pub(crate) number: usize,
    pub(crate) shape: &'a ColumnShape<M>,
}

impl<M: Measure> FileColumn<'_, M> {
    // How many bytes a cell adds to the column.
    fn cell_length(&self, cell: &Cell<M::Value>) -> usize
        ensures { result ≡ length (cell_bytes M.Measure.meaning self.now.number self.now.shape.now cell.now) }
    {
        if is_of(cell, self.number) {
            keyed_length(self.shape.mask, &cell.id.key)
        } else {
            0
        }
    }

    // What is left of some room after the groups of the column, if they fit.
    fn room_after_groups(&self, room: usize, cells: &[Cell<M::Value>]) -> Option<usize>
        ensures { LeftOf room (length (groups_bytes M.Measure.meaning self.now.shape.now (column self.now.number cells.now))) result }
    {
        let mut left = room;
        for cell in cells {
            left = left.checked_sub(self.cell_length(cell))?;
        }
        Some(left)
    }
}

// The length of the file of these cells, if there is so much room.
#[tactic(auto, using(crate::proofs::Lengths::file_size, crate::proofs::Lengths::columns_long, crate::proofs::Lengths::columns_none))]
pub fn length_within<M: Measure>(
    shapes: &[ColumnShape<M>],
    cells: &[Cell<M::Value>],
    room: usize,
) -> Option<usize>
    ensures { (fields rows : ℕ) → Within room (length (file_bytes M.Measure.meaning (content_of fields rows shapes.now cells.now))) result }
{
    let mut left = room.checked_sub(HEAD_LENGTH)?;
    for (number, shape) in shapes.iter().enumerate() {
        let groups = left.checked_sub(COLUMN_HEAD_LENGTH)?;
        left = FileColumn { number, shape }.room_after_groups(groups, cells)?;
    }
    Some(room - left)
}
