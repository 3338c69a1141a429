// The shape of a column.
ghost use Rattle.std.specs.Prelude.{◌≡◌, ◌^◌, ◌≤◌, min, count_ones, nat_lt};
ghost use Rattle.hall_file.specs.Written.{measured_byte, group_length};
ghost use Rattle.hall_file.specs.Rules.{most_width, mask_fits};
ghost use Rattle.hall_file.specs.Reading.{measured_of};

// The most row fields that a key has.
const MOST_WIDTH: u32 = 4;

// The measured byte where no field is measured.
const NO_FIELD: u8 = 255;

// What a column measures, in which row field, if in any, and which row fields its keys have: bit j of the
// mask for field j.
#[derive(Clone, Copy)]
pub struct ColumnShape<M> {
    pub measure: M,
    pub measured: Option<u8>,
    pub mask: u8,
}

// The measured byte of a file. This and the next are no `From` and `TryFrom`: both types are the library's.
pub fn byte_of_measured(measured: Option<u8>) -> u8
    ensures { result ≡ measured_byte measured }
{
    measured.unwrap_or(NO_FIELD)
}

// What a measured byte says, for a measure that takes so many of the row fields; nothing where it is wrong.
pub fn measured_of_byte(takes: usize, fields: u8, byte: u8) -> Option<Option<u8>>
    ensures { result ≡ measured_of takes fields byte }
{
    if takes == 0 {
        (byte == NO_FIELD).then_some(None)
    } else {
        (byte < fields).then_some(Some(byte))
    }
}

// Whether a mask has no bit at the number of row fields or above; a byte has none past the eighth.
#[tactic(auto, using(crate::proofs::Masks::below_shifted))]
fn is_below(fields: u8, mask: u8) -> bool
    ensures { result ≡ nat_lt mask (2 ^ fields) }
{
    u32::from(mask) < 1u32 << fields.min(8)
}

// Whether a mask has at most four bits, and none at the number of row fields or above.
pub(crate) fn is_mask(fields: u8, mask: u8) -> bool
    ensures { result ≡ mask_fits fields mask }
{
    is_below(fields, mask) && mask.count_ones() <= MOST_WIDTH
}

// How many values a key has: one for each bit of the mask, and no more than there are places.
pub fn key_width(mask: u8) -> usize
    ensures value { result ≡ min (count_ones mask) most_width }
    ensures bound { result ≤ most_width }
{
    // by `as`: `usize` has no `From<u32>`
    mask.count_ones().min(MOST_WIDTH) as usize
}

// How many bytes a group has in a column with this mask.
pub fn group_length(mask: u8) -> usize
    ensures value { result ≡ group_length mask }
    ensures bound { result ≤ 28 }
{
    4 * key_width(mask) + 12
}
