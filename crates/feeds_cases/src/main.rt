// Runs the feeds on sheets, lists and sections, and prints what came.
#![tactic(auto)]

use feeds::exhaust::exhaust;
use feeds::fault::Fault;
use feeds::feed::Feed;
use feeds::list::ListFeed;
use feeds::row::Row;
use feeds::section::Section;
use feeds::sheet::SheetFeed;
use std::io;
use text::numbers::{read_number, read_unsigned, write_number};
use text::refusal::Refusal;

// How many lines the long sheet has.
const MANY: u32 = 1_000_000;

// Sheets of width 2.
static SHEETS: [&[u8]; 30] = [
    b"",
    b"7 2\n",
    b"7 2\n7 1\n",
    b"0 0\n",
    b"999999999 0\n",
    b"-999999999 -1\n",
    b"07 2\n",
    b"-0 2\n",
    b"1000000000 0\n",
    b"7 2\n7\n",
    b"7 2\n7\n8 1\n",
    b"7 2",
    b"7 2\n8 1",
    b"7 2\n8",
    b"7 2\n ",
    b"\n",
    b"7 2\n\n8 1\n",
    b" 7 2\n",
    b"7  2\n",
    b"7 2 \n",
    b"7 2 3\n",
    b"7 2\r\n",
    b"7\t2\n",
    b"+7 2\n",
    b"--7 2\n",
    b"- 2\n",
    b"7 -\n",
    b"7 2\x00\n",
    b"7 \xff\n",
    b"1 2\n3 4\n5 6\n7 x\n9 10\n",
];

// Words of which some are numbers.
static WORDS: [&[u8]; 12] = [
    b"0",
    b"7",
    b"-7",
    b"999999999",
    b"-999999999",
    b"1000000000",
    b"00",
    b"-0",
    b"-",
    b"",
    b"7 ",
    b"+7",
];

// Numbers to write.
static VALUES: [i64; 7] = [0, 7, -10, 999_999_999, -999_999_999, i64::MAX, i64::MIN];

// Prints how a feed ended.
fn print_end(rt: &HostRuntime, end: Result<(), Fault>) -> io::Result<()> {
    let Err(fault) = end else {
        return println!(rt; "  clean");
    };
    let number = fault.number();
    let layer = fault.layer();
    let place = fault.place();
    println!(rt; "  fault {number} {layer} {place}")
}

// Prints the first values of a row.
fn print_row(rt: &HostRuntime, row: &Row, width: usize) -> io::Result<()> {
    print!(rt; " ")?;
    for value in row.iter().take(width) {
        print!(rt; " {value}")?;
    }
    println!(rt; "")
}

// Prints what a feed answered.
fn print_answer(
    rt: &HostRuntime,
    answer: Result<Option<Row>, Fault>,
    width: usize,
) -> io::Result<()> {
    match answer {
        Ok(Some(row)) => print_row(rt, &row, width),
        Ok(None) => print_end(rt, Ok(())),
        Err(fault) => print_end(rt, Err(fault)),
    }
}

// Prints all that a feed gives, and its end twice.
fn print_feed<F: Feed>(rt: &HostRuntime, feed: &mut F) -> io::Result<()> {
    let width = feed.width();
    loop {
        let answer = feed.next();
        print_answer(rt, answer, width)?;
        let Ok(Some(_)) = answer else {
            break;
        };
    }
    print_answer(rt, feed.next(), width)
}

// Prints how many rows a feed has left, and its end.
fn print_left<F: Feed>(rt: &HostRuntime, feed: &mut F) -> io::Result<()> {
    let left = exhaust(feed);
    let rows = left.rows;
    println!(rt; "  {rows} rows left")?;
    print_end(rt, left.end)
}

// Prints a refusal: its number alone, in other words than its `Display`.
fn print_refusal(rt: &HostRuntime, refusal: Refusal) -> io::Result<()> {
    let number = refusal.number();
    println!(rt; "  refused {number}")
}

// A feed, if it was made.
fn run_made<F: Feed + Drop>(rt: &HostRuntime, made: Result<F, Refusal>) -> io::Result<()> {
    match made {
        Ok(mut feed) => print_feed(rt, &mut feed),
        Err(refusal) => print_refusal(rt, refusal),
    }
}

// A sheet.
fn run_sheet(rt: &HostRuntime, text: &[u8], width: usize) -> io::Result<()> {
    run_made(rt, SheetFeed::new(text, width))
}

// A list.
fn run_list(rt: &HostRuntime, rows: &[Row], width: usize) -> io::Result<()> {
    run_made(rt, ListFeed::new(rows, width))
}

// A section of any feed; a refused making shows that the feed below was not asked.
fn run_section<F: Feed + Drop>(
    rt: &HostRuntime,
    feed: F,
    field: usize,
    value: i32,
) -> io::Result<()> {
    match Section::new(feed, field, value) {
        Ok(mut section) => print_feed(rt, &mut section),
        Err((mut feed, refusal)) => {
            print_refusal(rt, refusal)?;
            print_left(rt, &mut feed)
        }
    }
}

// A section of a sheet of width 3.
fn run_sheet_section(rt: &HostRuntime, text: &[u8], field: usize, value: i32) -> io::Result<()> {
    match SheetFeed::new(text, 3) {
        Ok(feed) => run_section(rt, feed, field, value),
        Err(refusal) => print_refusal(rt, refusal),
    }
}

// A section of a section of a sheet of width 3.
fn run_nested(rt: &HostRuntime, text: &[u8]) -> io::Result<()> {
    match SheetFeed::new(text, 3) {
        Ok(feed) => match Section::new(feed, 0, 1) {
            Ok(section) => run_section(rt, section, 1, 5),
            Err((_, refusal)) => print_refusal(rt, refusal),
        },
        Err(refusal) => print_refusal(rt, refusal),
    }
}

// A word, read as a number and as a number without sign.
fn run_word(rt: &HostRuntime, word: &[u8]) -> io::Result<()> {
    let number = read_number(word);
    let unsigned = read_unsigned(word);
    println!(rt; "  {number:?} {unsigned:?}")
}

// A number, written into a buffer of 21 bytes from its third byte on.
fn run_written(rt: &HostRuntime, value: i64) -> io::Result<()> {
    let mut buffer = [b'.'; 21];
    let end = write_number(value, &mut buffer, 2).unwrap_or(0);
    println!(rt; "  {value}: {end} {buffer:?}")
}

// A sheet of many lines, counted.
fn run_long(rt: &HostRuntime) -> io::Result<()> {
    let mut text = Vec::new(rt.alloc());
    for _ in 0..MANY {
        text.extend_from_slice(b"-12 999999999\n")?;
    }
    text.extend_from_slice(b"1 x\n")?;
    match SheetFeed::new(text.as_slice(), 2) {
        Ok(mut feed) => print_left(rt, &mut feed),
        Err(refusal) => print_refusal(rt, refusal),
    }
}

// The words and the numbers to write.
fn run_numbers(rt: &HostRuntime) -> io::Result<()> {
    println!(rt; "words")?;
    for word in WORDS.iter() {
        run_word(rt, word)?;
    }
    println!(rt; "written")?;
    for value in VALUES.iter() {
        run_written(rt, *value)?;
    }
    Ok(())
}

// The sheets of width 2.
fn run_sheets(rt: &HostRuntime) -> io::Result<()> {
    for (i, text) in SHEETS.iter().enumerate() {
        println!(rt; "sheet {i}")?;
        run_sheet(rt, text, 2)?;
    }
    Ok(())
}

// Sheets and lists of several widths.
fn run_widths(rt: &HostRuntime) -> io::Result<()> {
    println!(rt; "widths")?;
    run_sheet(rt, b"7\n", 0)?;
    run_sheet(rt, b"7\n", 1)?;
    run_sheet(rt, b"1 2 3 4 5 6 7 8\n", 8)?;
    run_sheet(rt, b"1 2 3 4 5 6 7 8 9\n", 9)?;
    println!(rt; "lists")?;
    let rows = [[1, 2, 3, 4, 5, 6, 7, 8], [-1, i32::MAX, 0, 0, 0, 0, 0, 0]];
    run_list(rt, &rows, 2)?;
    run_list(rt, &rows, 8)?;
    run_list(rt, &rows, 0)?;
    run_list(rt, &rows, 9)
}

// Sections of a sheet, in range and out of it, over a bad line, and of a section.
fn run_sections(rt: &HostRuntime) -> io::Result<()> {
    println!(rt; "sections")?;
    let text = b"1 5 2\n2 5 1\n1 6 0\n1 5 3\n";
    run_sheet_section(rt, text, 0, 1)?;
    run_sheet_section(rt, text, 2, -7)?;
    run_sheet_section(rt, text, 3, 1)?;
    run_sheet_section(rt, text, 0, 1_000_000_000)?;
    run_sheet_section(rt, b"1 5 2\n2 5\n1 6 0\n", 0, 1)?;
    run_nested(rt, text)
}

fn main(rt: HostRuntime) -> io::Result<()> {
    run_numbers(&rt)?;
    run_sheets(&rt)?;
    run_widths(&rt)?;
    run_sections(&rt)?;
    println!(rt; "long")?;
    run_long(&rt)
}
