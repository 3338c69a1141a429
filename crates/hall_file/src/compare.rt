// The shape of a file against a given shape.
ghost use Rattle.std.specs.Prelude.{◌≡◌, List, map, Decides};
ghost use Rattle.hall_file.specs.Written.{Column, Content, shape_of};
ghost use Rattle.hall_file.specs.Rules.{Good};
ghost use Rattle.hall_file.specs.Views.{Shows, ShowsColumns, CheckedShape};

use crate::check::check;
use crate::shape::ColumnShape;
use crate::view::{Columns, View};
use measures::measure::Measure;
use text::refusal::Refusal;

// Measures are told apart by their kinds: they need have no `==`, so that none can be derived.
fn same_shape<M: Measure>(a: &ColumnShape<M>, b: &ColumnShape<M>) -> bool
    ensures { Decides result (a.now ≡ b.now) }
{
    a.measure.kind() == b.measure.kind() && a.measured == b.measured && a.mask == b.mask
}

impl<'a> Columns<'a> {
    // Whether the columns have just these shapes.
    pub fn have_shapes<M: Measure>(self, shapes: &[ColumnShape<M>]) -> bool
        ensures { (cs : List (Column M M.Value)) → ShowsColumns M.Measure.meaning cs self.entry → Decides result (map (λ c. c.shape) cs ≡ shapes.now) }
    {
        let mut columns = self;
        for shape in shapes {
            let Some((groups, others)) = columns.split_first::<M>() else {
                return false;
            };
            if !same_shape(&groups.shape, shape) {
                return false;
            }
            columns = others;
        }
        columns.number >= columns.head.columns
    }
}

impl<'a> View<'a> {
    // Whether the file has just this shape: so many row fields, and columns of these shapes.
    pub fn has_shape<M: Measure>(self, fields: u8, shapes: &[ColumnShape<M>]) -> bool
        ensures { (f : Content M M.Value) → Good M.Measure.meaning f → Shows M.Measure.meaning f self.entry → Decides result (shape_of f ≡ record { fields = fields; columns = shapes.now }) }
    {
        self.head.fields == fields && self.columns::<M>().have_shapes(shapes)
    }
}

// The file in bytes that are well made and have this shape; 7 where they are not well made, by the kinds in
// the bytes themselves, then 8 where they have another shape.
pub fn check_shape<'a, M: Measure>(
    fields: u8,
    shapes: &[ColumnShape<M>],
    bytes: &'a [u8],
) -> Result<View<'a>, Refusal>
    ensures { CheckedShape M.Measure.meaning (record { fields = fields; columns = shapes.now }) bytes.now result }
{
    let view = check::<M>(bytes)?;
    if view.has_shape(fields, shapes) {
        Ok(view)
    } else {
        Err(Refusal::FileShape)
    }
}
