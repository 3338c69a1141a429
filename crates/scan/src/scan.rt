// One pass over the rows.
ghost use Rattle.std.specs.Prelude.{◌≡◌, ◌+◌, ◌^◌, ◌<◌, length, nat_lt, slice_index_or};
ghost use Rattle.measures.specs.Values.{most_rows};
ghost use Rattle.scan.specs.Scans.{rows_of, is_row, measured, with_row, Gathers, scanned_by, scanned};

use crate::found::{Gathered, Scanned};
use measures::measure::Measure;
use measures::values::{MOST_ROWS, all_row_values, value_at};
use plan::plan::{Column, Columns, MOST_COLUMNS, Plan};
use text::refusal::Refusal;

// Whether these are the values of a row of a width.
fn is_row(width: usize, row: &[i32]) -> bool
    ensures { result ≡ is_row width row.now }
{
    row.len() == width && all_row_values(row)
}

// The value of one row by a measure: of its measured field, if there is one.
fn one_row<M: Measure>(measure: &M, field: Option<u8>, row: &[i32]) -> M::Value
    ensures { result ≡ (M.Measure.meaning measure.now).one (measured field row.now) }
{
    match field {
        None => measure.one(&[]),
        Some(field) => measure.one(&[value_at(row, usize::from(field))]),
    }
}

// Whether these are more rows than are ever taken together.
fn are_too_many(rows: &[&[i32]]) -> bool
    ensures { result ≡ nat_lt most_rows (length (rows_of rows.now)) }
{
    // `usize` has no `From<u32>`; `as` is proved to lose nothing
    rows.len() > MOST_ROWS as usize
}

// What is scanned for: a column, the width of a row, and a base row.
#[derive(Clone, Copy)]
struct Asked<'a, M> {
    column: &'a Column<M>,
    width: usize,
    base: &'a [i32],
}

impl<M: Measure> Asked<'_, M> {
    // One row more, if it meets the condition of the column.
    fn with_row(&self, all: Gathered<M::Value>, row: &[i32]) -> Gathered<M::Value>
        requires { all.rows + 1 < 2 ^ 64 }
        ensures { result ≡ with_row (M.Measure.meaning self.now.column.now.measure) self.now.column.now self.now.base.now all row.now }
    {
        let column = self.column;
        if column.condition.holds(row, self.base) {
            Gathered {
                value: column
                    .measure
                    .join(all.value, one_row(&column.measure, column.field, row)),
                rows: all.rows + 1,
            }
        } else {
            all
        }
    }

    // What the rows that meet the condition come to; nothing where one of the list is no row of the width.
    fn gather(&self, rows: &[&[i32]]) -> Option<Gathered<M::Value>>
        ensures { Gathers (M.Measure.meaning self.now.column.now.measure) self.now.column.now self.now.width self.now.base.now (rows_of rows.now) result }
    {
        let mut all = Gathered {
            value: self.column.measure.none(),
            rows: 0,
        };
        for row in rows {
            if !is_row(self.width, row) {
                return None;
            }
            all = self.with_row(all, row);
        }
        Some(all)
    }

    // Scans the rows by the column: its answer over the rows that meet its condition, and how many these are.
    fn answer(&self, rows: &[&[i32]]) -> Result<Scanned<M::Answer>, Refusal>
        ensures { result ≡ scanned_by M.Measure.meaning self.now.column.now self.now.width (rows_of rows.now) self.now.base.now }
    {
        let Some(all) = self.gather(rows) else {
            return Err(Refusal::NotARow);
        };
        if are_too_many(rows) {
            return Err(Refusal::TooManyRows);
        }
        // there are few enough: `as` is proved to lose nothing, and `try_from` would have a case that never comes
        let met = all.rows as u32;
        Ok(Scanned {
            answer: self.column.measure.answer(all.value, met),
            rows: met,
        })
    }
}

// A column of a plan by its place; past the last place, the last.
fn column_at<M>(columns: &Columns<M>, place: usize) -> &Column<M>
    ensures value { place < 8 → (d : Column M) → result.now ≡ slice_index_or columns.now.places place d }
    ensures places { length columns.now.places ≡ 8 }
{
    &columns.places[place.min(MOST_COLUMNS - 1)]
}

// The direct scan: the answer of a column for a base row over the rows that meet its condition, and how many these are.
// Refused are, in this order, a row that is none of the plan, too many rows, a column that is not in the plan, and a base
// row that is none of the plan.
pub fn scan<M: Measure>(
    plan: &Plan<M>,
    rows: &[&[i32]],
    base: &[i32],
    column: usize,
) -> Result<Scanned<M::Answer>, Refusal>
    ensures { result ≡ scanned M.Measure.meaning plan.now (rows_of rows.now) base.now column }
{
    let names = &plan.names;
    let asked = Asked {
        column: column_at(&plan.columns, column),
        width: names.rows.len(),
        base,
    };
    let found = asked.answer(rows)?;
    if column >= plan.titles.len() {
        return Err(Refusal::NoSuchColumn);
    }
    if !is_row(names.base.len(), base) {
        return Err(Refusal::NotABaseRow);
    }
    Ok(found)
}
