// The feed of one section of another feed.
ghost use Rattle.std.specs.Prelude.{◌≡◌};
ghost use Rattle.feeds.specs.Sections.{MadeOn, SectionOf, section_coming, is_section, hits, same_number};
ghost use Rattle.feeds.specs.Steps.{cut};

use crate::fault::Fault;
use crate::feed::Feed;
use crate::row::Row;
use measures::values::{is_row_value, value_at};
use text::refusal::Refusal;

// Gives those rows of the feed below that have a value in a field, and ends as that feed does.
#[derive(Drop)]
pub struct Section<F: Feed> {
    feed: F,
    field: usize,
    value: i32,
}

// Whether a section can be made of a field and a value on a feed of a width.
fn is_section(field: usize, value: i32, width: usize) -> bool
    ensures { result ≡ is_section field value width }
{
    field < width && is_row_value(value)
}

// Whether two values are the same: what a section goes by, under a contract of its own.
fn is_same(a: i32, b: i32) -> bool
    ensures { result ≡ same_number a b }
{
    a == b
}

impl<F: Feed> Section<F> {
    // The section of a feed, or the feed back, not asked, with `FeedRange`: its field is not below the width or its value is no row value.
    pub fn new(feed: F, field: usize, value: i32) -> Result<Section<F>, (F, Refusal)>
        ensures { MadeOn (is_section field value (F.Feed.wide feed)) feed (SectionOf F.Feed.wide F.Feed.coming F.Feed.ending feed field value) result }
    {
        if !is_section(field, value, feed.width()) {
            return Err((feed, Refusal::FeedRange));
        }
        Ok(Section { feed, field, value })
    }

    // Whether a row of a width is one of the section.
    fn has(&self, row: &Row, width: usize) -> bool
        ensures { result ≡ hits self.now.field self.now.value (cut width row.now) }
    {
        self.field < width && is_same(value_at(row, self.field), self.value)
    }

    // The feed below, with the rows that it still has.
    pub fn into_below(self) -> F
        ensures { result ≡ self.feed }
    {
        let Section { feed, .. } = self;
        feed
    }
}

impl<F: Feed> Feed for Section<F> {
    ghost wide = { λ s. F.Feed.wide s.feed };

    ghost coming = { section_coming F.Feed.coming };

    ghost ending = { λ s. F.Feed.ending s.feed };

    fn width(&self) -> usize {
        self.feed.width()
    }

    fn next(&mut self) -> Result<Option<Row>, Fault> {
        let width = self.feed.width();
        while let Some(row) = self.feed.next()? {
            if self.has(&row, width) {
                return Ok(Some(row));
            }
        }
        Ok(None)
    }
}
