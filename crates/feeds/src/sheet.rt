// The feed over the text of a sheet.
ghost use Rattle.std.specs.Prelude.{◌≡◌, cond};
ghost use Rattle.feeds.specs.Makings.{Made, is_width};
ghost use Rattle.feeds.specs.SheetFeeds.{sheet_coming, sheet_ending, LineRead};
ghost use Rattle.feeds.specs.WrittenSheets.{ExactlyWritten};
ghost use Rattle.feeds.specs.Sheets.{sheet_rows, sheet_end, line_feed, space};

use crate::fault::Fault;
use crate::feed::Feed;
use crate::row::{MOST_FIELDS, Row, Width};
use text::numbers::front_number;
use text::refusal::Refusal;

// Gives the rows that the lines of a lent text write, up to its first bad line.
#[derive(Drop)]
pub struct SheetFeed<'a> {
    rest: &'a [u8],
    // the number of the first line of the rest
    line: usize,
    width: Width,
}

// The byte that must follow a number: a line feed after the last one of a line, a space after the others.
fn separator(is_last: bool) -> u8
    ensures { result ≡ cond is_last line_feed space }
{
    if is_last { b'\n' } else { b' ' }
}

// Reads the first line of a text as a row of a width, and gives the text after it; none if the line is bad.
fn read_line<'a>(text: &'a [u8], width: Width) -> Option<(Row, &'a [u8])>
    ensures { LineRead width.fields text.now result }
{
    let mut row = [0; MOST_FIELDS];
    let mut rest = text;
    for (k, place) in row[..width.fields].iter_mut().enumerate() {
        let front = front_number(rest);
        *place = front.number?;
        rest = rest[front.length..].strip_prefix(&[separator(k + 1 == width.fields)])?;
    }
    Some((row, rest))
}

// The feed of a whole text, from its line 1 on.
fn begun<'a>(text: &'a [u8], width: Width) -> SheetFeed<'a>
    ensures width { result.width.fields ≡ width.fields }
    ensures coming { sheet_coming result ≡ sheet_rows width.fields text.now }
    ensures ending { sheet_ending result ≡ sheet_end width.fields text.now }
    ensures exactly { ExactlyWritten width.fields text.now }
{
    SheetFeed {
        rest: text,
        line: 1,
        width,
    }
}

impl<'a> SheetFeed<'a> {
    // A feed of all the lines, or `FeedRange` for a width outside 1 to 8.
    // A sheet that ends clean is exactly how its rows are written.
    pub fn new(text: &'a [u8], width: usize) -> Result<SheetFeed<'a>, Refusal>
        ensures { Made (is_width width) (λ f. (f.width.fields ≡ width) × (sheet_coming f ≡ sheet_rows width text.now) × (sheet_ending f ≡ sheet_end width text.now) × ExactlyWritten width text.now) result }
    {
        Ok(begun(text, Width::new(width)?))
    }
}

impl<'a> Feed for SheetFeed<'a> {
    ghost wide = { λ f. f.width.fields };

    ghost coming = { sheet_coming };

    ghost ending = { sheet_ending };

    fn width(&self) -> usize {
        self.width.fields
    }

    #[tactic(auto, using(crate::proofs::Ends::held_next))]
    fn next(&mut self) -> Result<Option<Row>, Fault> {
        if self.rest.is_empty() {
            return Ok(None);
        }
        let (row, rest) = read_line(self.rest, self.width).ok_or(Fault::BadLine {
            line: self.line,
        })?;
        self.rest = rest;
        self.line = self.line.saturating_add(1);
        Ok(Some(row))
    }
}
