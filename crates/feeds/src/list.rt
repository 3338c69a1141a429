// The feed over a list of records.
ghost use Rattle.std.specs.Prelude.{◌≡◌, map};
ghost use Rattle.feeds.specs.Lists.{list_coming, list_ending};
ghost use Rattle.feeds.specs.Makings.{Made, is_width};
ghost use Rattle.feeds.specs.Steps.{clean, cut};

use crate::fault::Fault;
use crate::feed::Feed;
use crate::row::{Row, Width};
use text::refusal::Refusal;

// Gives the records of a lent list, eight values each, cut to its width. Values may be out of range.
#[derive(Drop)]
pub struct ListFeed<'a> {
    rest: &'a [Row],
    width: Width,
}

impl<'a> ListFeed<'a> {
    // A feed of all the records, or `FeedRange` for a width outside 1 to 8.
    pub fn new(records: &'a [Row], width: usize) -> Result<ListFeed<'a>, Refusal>
        ensures { Made (is_width width) (λ f. (f.width.fields ≡ width) × (list_coming f ≡ map (cut width) records.now) × (list_ending f ≡ clean)) result }
    {
        Ok(ListFeed {
            rest: records,
            width: Width::new(width)?,
        })
    }
}

impl<'a> Feed for ListFeed<'a> {
    ghost wide = { λ f. f.width.fields };

    ghost coming = { list_coming };

    ghost ending = { list_ending };

    fn width(&self) -> usize {
        self.width.fields
    }

    fn next(&mut self) -> Result<Option<Row>, Fault> {
        let Some((row, rest)) = self.rest.split_first() else {
            return Ok(None);
        };
        self.rest = rest;
        Ok(Some(*row))
    }
}
