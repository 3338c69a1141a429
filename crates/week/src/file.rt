// The games grouped by player, and the hall file of these groups.
use crate::games::{WIDTH, unforeseen};
use any_measure::any::{AnyMeasure, AnyValue};
use anyhow::{Context, anyhow};
use cells::cell::Cell;
use cells::id::GroupId;
use cells::place::Place;
use feeds::feed::Feed;
use feeds::row::Row;
use feeds::sheet::SheetFeed;
use groups::held::{OpenGroups, SortedGroups};
use hall_file::check::check;
use hall_file::shape::ColumnShape;
use hall_write::write::write;
use measures::measure::Measure;

// The score: the sum of the points, by player.
const SCORE: AnyMeasure = AnyMeasure::Sum;

const SCORE_COLUMN: u8 = 0;

const POINTS_FIELD: u8 = 3;

const PLAYER_MASK: u8 = 1;

// How many places for groups there are, and how long a file can be.
const PLACES: usize = 16;

const BUFFER: usize = 128;

// One row as a contribution to the score of its player.
fn contribution(row: &Row) -> Cell<AnyValue> {
    let [player, _, _, points, ..] = *row;
    Cell {
        id: GroupId {
            column: SCORE_COLUMN,
            key: [player, 0, 0, 0],
        },
        rows: 1,
        value: SCORE.one(&[points]),
    }
}

// Adds each row of a feed to its group, and counts the rows.
fn gather<F: Feed>(feed: &mut F, groups: &mut OpenGroups<AnyValue>) -> anyhow::Result<u32> {
    let mut rows: u32 = 0;
    while let Some(row) = feed.next().map_err(|_| anyhow!("a sheet has a bad line"))? {
        groups.add(&SCORE, contribution(&row))?;
        rows = rows.saturating_add(1);
    }
    Ok(rows)
}

// The groups in order, told one by one.
fn cells_of(
    rt: &HostRuntime,
    groups: &SortedGroups<AnyValue>,
) -> anyhow::Result<Vec<Cell<AnyValue>>> {
    let mut cells = Vec::new(rt.alloc());
    for place in groups.live() {
        let cell = place.cell;
        let player = cell.id.key[0];
        let rows = cell.rows;
        let score = SCORE.answer(cell.value, rows);
        println!(rt; "  player {player}: rows {rows}, score {score}")?;
        cells.push(cell)?;
    }
    Ok(cells)
}

// Whether bytes are a hall file, in words.
fn tell_check(rt: &HostRuntime, bytes: &[u8]) -> anyhow::Result<()> {
    match check::<AnyMeasure>(bytes) {
        Ok(view) => {
            let rows = view.head().rows;
            println!(rt; "  read again: a well-made file of {rows} rows.")?;
        }
        Err(refusal) => {
            let number = refusal.number();
            println!(rt; "  read again: refused, number {number}.")?;
        }
    }
    Ok(())
}

fn tell_bytes(rt: &HostRuntime, bytes: &[u8]) -> anyhow::Result<()> {
    print!(rt; "  ")?;
    for byte in bytes {
        print!(rt; "{byte:02X}")?;
    }
    println!(rt)?;
    Ok(())
}

// The part of a buffer that a file was written to.
fn front(buffer: &[u8], length: usize) -> anyhow::Result<&[u8]> {
    buffer
        .get(..length)
        .context("a file longer than its buffer")
}

// Writes the file of the groups, reads it again, and once more with one byte flipped.
fn tell_file(rt: &HostRuntime, rows: u32, cells: &[Cell<AnyValue>]) -> anyhow::Result<()> {
    let shape = ColumnShape {
        measure: SCORE,
        measured: Some(POINTS_FIELD),
        mask: PLAYER_MASK,
    };
    let mut buffer = [0u8; BUFFER];
    let length = write(WIDTH, rows, &[shape], cells, &mut buffer).map_err(unforeseen)?;
    let bytes = front(&buffer, length)?;
    println!(rt; "Their hall file, {length} bytes:")?;
    tell_bytes(rt, bytes)?;
    tell_check(rt, bytes)?;
    println!(rt; "The same with one bit flipped:")?;
    buffer[7] ^= 1;
    tell_check(rt, front(&buffer, length)?)
}

// All games of a sheet grouped by player, and the hall file of these groups.
pub(crate) fn tell_groups(rt: &HostRuntime, text: &[u8]) -> anyhow::Result<()> {
    let mut sheet = SheetFeed::new(text, usize::from(WIDTH)).map_err(unforeseen)?;
    let places = vec![in rt.alloc(); Place::new(contribution(&[0; 8])); PLACES]?;
    let Ok(mut groups) = OpenGroups::start(places) else {
        return Err(anyhow!("too many places"));
    };
    let rows = gather(&mut sheet, &mut groups)?;
    let sorted = groups.sort();
    let cells = cells_of(rt, &sorted)?;
    tell_file(rt, rows, cells.as_slice())
}
