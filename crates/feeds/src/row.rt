// What a row is.
ghost use Rattle.std.specs.Prelude.{IsTrue};
ghost use Rattle.feeds.specs.Makings.{is_width};

use text::refusal::Refusal;

// The most values that a row has.
pub const MOST_FIELDS: usize = 8;

// A row: eight values, of which as many count as its feed is wide.
pub type Row = [i32; MOST_FIELDS];

// How many values rows have: from 1 to 8.
#[derive(Clone, Copy)]
pub(crate) struct Width {
    pub(crate) fields: usize,
    ghost in_range: { IsTrue (is_width fields) },
}

impl Width {
    ghost use Rattle.std.specs.Prelude.{◌≡◌};
    ghost use Rattle.feeds.specs.Makings.{Made};

    // So many values, or `FeedRange` for a number outside 1 to 8.
    pub(crate) fn new(fields: usize) -> Result<Width, Refusal>
        ensures { Made (is_width fields) (λ w. w.fields ≡ fields) result }
    {
        if fields < 1 || fields > MOST_FIELDS {
            return Err(Refusal::FeedRange);
        }
        Ok(Width { fields })
    }
}
