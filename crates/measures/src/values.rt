// The values of a row: whole numbers from -999,999,999 to 999,999,999.
ghost use Rattle.std.specs.Prelude.{◌≡◌, pos, slice_index_or};
ghost use Rattle.measures.specs.Values.{is_row_value, all_row_values};
ghost use Rattle.measures.specs.Kinds.{measured};

// The greatest row value; the least is as far below zero.
pub const GREATEST_VALUE: u32 = 999_999_999;

// The most rows that are ever taken together.
pub const MOST_ROWS: u32 = 1_000_000;

// Whether a number can stand in a field of a row.
pub fn is_row_value(v: i32) -> bool
    ensures { result ≡ is_row_value v }
{
    v.unsigned_abs() <= GREATEST_VALUE
}

// Whether each of these can stand in a field of a row.
pub fn all_row_values(values: &[i32]) -> bool
    ensures { result ≡ all_row_values values.now }
{
    for value in values {
        if !is_row_value(*value) {
            return false;
        }
    }
    true
}

// The value in a field of a row; 0 where the row has none.
pub fn value_at(row: &[i32], field: usize) -> i32
    ensures { result ≡ slice_index_or row.now field (pos 0) }
{
    row.get(field).copied().unwrap_or(0)
}

// What stands in the one measured field.
pub(crate) fn measured(values: &[i32]) -> i32
    ensures { result ≡ measured values.now }
{
    value_at(values, 0)
}
