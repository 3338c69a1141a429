// Views of the bytes of a checked file: nothing is copied, each key and count is read where it lies.
ghost use Rattle.std.specs.Prelude.{◌≡◌, List};
ghost use Rattle.cells.specs.Columns.{Group};
ghost use Rattle.hall_file.specs.Written.{Column, Content};
ghost use Rattle.hall_file.specs.Rules.{Good};
ghost use Rattle.hall_file.specs.Views.{Shows, ShowsColumns, ShowsGroups, FirstColumn, FirstGroup};

use crate::columns::take_shape;
use crate::groups::take_cell;
use crate::head::Head;
use crate::shape::{ColumnShape, group_length};
use cells::cell::Cell;
use measures::measure::Measure;
use measures::values::MOST_ROWS;
use readers::take_u16;

// A file that was found well made: its head, and the bytes of its columns.
#[derive(Clone, Copy)]
pub struct View<'a> {
    pub(crate) head: Head,
    pub(crate) body: &'a [u8],
}

// The columns of a file from one column on: the file's head, that column's number, and the bytes from it on.
#[derive(Clone, Copy)]
pub struct Columns<'a> {
    pub(crate) head: Head,
    pub(crate) number: u8,
    pub(crate) bytes: &'a [u8],
}

// The groups of a column from one group on: the column's number and shape, how many groups are left, and
// their bytes.
#[derive(Clone, Copy)]
pub struct Groups<'a, M> {
    pub(crate) number: u8,
    pub(crate) shape: ColumnShape<M>,
    pub(crate) left: u16,
    pub(crate) bytes: &'a [u8],
}

impl<'a> View<'a> {
    // Number of row fields, number of columns and row count.
    pub fn head(self) -> Head
        ensures { result ≡ self.entry.head }
    {
        self.head
    }

    // All columns; the measures are those by which the file was checked.
    pub fn columns<M: Measure>(self) -> Columns<'a>
        ensures { (f : Content M M.Value) → Good M.Measure.meaning f → Shows M.Measure.meaning f self.entry → ShowsColumns M.Measure.meaning f.columns result × (result.number ≡ 0) }
    {
        Columns {
            head: self.head,
            number: 0,
            bytes: self.body,
        }
    }
}

impl<'a> Columns<'a> {
    // The first of the columns, and the others.
    pub fn split_first<M: Measure>(self) -> Option<(Groups<'a, M>, Columns<'a>)>
        ensures { (cs : List (Column M M.Value)) → ShowsColumns M.Measure.meaning cs self.entry → FirstColumn M.Measure.meaning cs self.entry.number result }
    {
        if self.number >= self.head.columns {
            return None;
        }
        let (shape, rest) = take_shape::<M>(self.head.fields, self.bytes)?;
        let (left, rest) = take_u16(rest)?;
        let length = usize::from(left) * group_length(shape.mask);
        let (bytes, rest) = rest.split_at_checked(length)?;
        let groups = Groups {
            number: self.number,
            shape,
            left,
            bytes,
        };
        let others = Columns {
            head: self.head,
            number: self.number + 1,
            bytes: rest,
        };
        Some((groups, others))
    }
}

impl<'a, M: Measure> Groups<'a, M> {
    // The column's number.
    pub fn number(self) -> u8
        ensures { result ≡ self.entry.number }
    {
        self.number
    }

    // The column's shape.
    pub fn shape(self) -> ColumnShape<M>
        ensures { result ≡ self.entry.shape }
    {
        self.shape
    }

    // The first of the groups, as a cell of its column, and the others.
    pub fn split_first(self) -> Option<(Cell<M::Value>, Groups<'a, M>)>
        ensures { (s : ColumnShape M) (gs : List (Group M.Value)) → ShowsGroups M.Measure.meaning s gs self.entry → FirstGroup M.Measure.meaning s gs self.entry.number result }
    {
        if self.left == 0 {
            return None;
        }
        let (cell, rest) = take_cell(self.number, &self.shape, MOST_ROWS, self.bytes)?;
        let others = Groups {
            number: self.number,
            shape: self.shape,
            left: self.left - 1,
            bytes: rest,
        };
        Some((cell, others))
    }
}
