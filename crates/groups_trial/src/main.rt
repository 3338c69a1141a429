// Groups tried with no place, one place and all places full, at several measures.
#![tactic(auto)]

use any_measure::any::AnyMeasure;
use cells::cell::Cell;
use cells::id::GroupId;
use cells::place::Place;
use groups::held::{OpenGroups, SortedGroups};
use measures::answer::Answer;
use measures::count::Count;
use measures::least::LEAST;
use measures::mean::MEAN;
use measures::measure::Measure;
use measures::sum::SUM;
use std::io;

fn id(column: u8, key: i32) -> GroupId {
    GroupId {
        column,
        key: [key, 0, 0, 0],
    }
}

fn add<M: Measure>(
    rt: &HostRuntime,
    groups: &mut OpenGroups<M::Value>,
    measure: &M,
    id: GroupId,
    value: i32,
) -> io::Result<()> {
    let new = Cell {
        id,
        rows: 1,
        value: measure.one(&[value]),
    };
    let column = id.column;
    let key = id.key[0];
    let missing = groups.missing(&[id, id]);
    print!(rt; "  column {column} key {key}: {missing} missing, ")?;
    match groups.add(measure, new) {
        Ok(added) => println!(rt; "{added}"),
        Err(no_room) => println!(rt; "{no_room}"),
    }
}

fn list<M: Measure<Answer = Answer>>(
    rt: &HostRuntime,
    groups: &SortedGroups<M::Value>,
    measure: &M,
) -> io::Result<()> {
    for place in groups.live() {
        let cell = place.cell;
        let column = cell.id.column;
        let key = cell.id.key[0];
        let rows = cell.rows;
        let answer = measure.answer(cell.value, rows);
        println!(rt; "  column {column} key {key} rows {rows} {answer}")?;
    }
    Ok(())
}

// Starts over places that hold something, adds, sorts, links anew and adds again.
fn trial<M: Measure<Answer = Answer>>(
    rt: &HostRuntime,
    name: &str,
    measure: M,
    places: usize,
) -> io::Result<()> {
    println!(rt; "{name}, {places} places")?;
    let waste = Cell {
        id: id(0, 7),
        rows: 9,
        value: measure.one(&[99]),
    };
    let Ok(mut groups) = OpenGroups::start(vec![in rt.alloc(); Place::new(waste); places]?) else {
        return Ok(());
    };
    add(rt, &mut groups, &measure, id(0, 7), 5)?;
    add(rt, &mut groups, &measure, id(1, 7), 4)?;
    add(rt, &mut groups, &measure, id(0, -8), 3)?;
    add(rt, &mut groups, &measure, id(0, 7), 2)?;
    let sorted = groups.sort();
    list(rt, &sorted, &measure)?;
    let mut again = sorted.link();
    add(rt, &mut again, &measure, id(1, 7), 1)?;
    let sorted = again.sort();
    list(rt, &sorted, &measure)?;
    let room = sorted.into_places().len();
    println!(rt; "  {room} places back")
}

fn main(rt: HostRuntime) -> io::Result<()> {
    trial(&rt, "count", Count, 0)?;
    trial(&rt, "sum", SUM, 1)?;
    trial(&rt, "sum", SUM, 2)?;
    trial(&rt, "count", Count, 3)?;
    trial(&rt, "least", LEAST, 3)?;
    trial(&rt, "mean", MEAN, 4)?;
    trial(&rt, "a sum picked at run time", AnyMeasure::Sum, 3)?;
    trial(&rt, "a least picked at run time", AnyMeasure::Least, 2)
}
