// How fast groups are found, joined, sorted and linked: a million contributions by a fixed generator
// into 50,000 groups and into 65,535. The checksums go to standard output, the times to standard error.
#![tactic(auto)]

use cells::cell::Cell;
use cells::id::GroupId;
use cells::place::Place;
use groups::held::{OpenGroups, SortedGroups};
use measures::sum::SUM;
use std::io;
use std::time::Instant;

const CONTRIBUTIONS: u32 = 1_000_000;

const PLACES: usize = 65_535;

fn contribution(random: u64, keys: u64) -> Cell<i64> {
    let spread = (random / 0x1_0000_0000).checked_rem(keys).unwrap_or(0);
    // each number is below its modulus, so that `as` is proved to lose nothing
    let key = (spread.wrapping_mul(40_503) % 0x1_0000_0000) as u32;
    Cell {
        id: GroupId {
            column: (spread % 8) as u8,
            key: [key.cast_signed(), 7, 0, 0],
        },
        rows: 1,
        value: (random % 1_000) as i64,
    }
}

// Adds the contributions; answers how many found no room.
fn fill(groups: &mut OpenGroups<i64>, keys: u64) -> u64 {
    let mut random: u64 = 1;
    let mut turned_away: u64 = 0;
    for _ in 0..CONTRIBUTIONS {
        random = random
            .wrapping_mul(6_364_136_223_846_793_005)
            .wrapping_add(1_442_695_040_888_963_407);
        if groups.add(&SUM, contribution(random, keys)).is_err() {
            turned_away = turned_away.wrapping_add(1);
        }
    }
    turned_away
}

fn checksum(groups: &SortedGroups<i64>) -> u64 {
    let mut sum: u64 = 0;
    for place in groups.live() {
        let cell = place.cell;
        let key = u64::from(cell.id.key[0].cast_unsigned());
        sum = sum
            .wrapping_mul(31)
            .wrapping_add(u64::from(cell.id.column))
            .wrapping_mul(31)
            .wrapping_add(key);
        sum = sum
            .wrapping_mul(31)
            .wrapping_add(u64::from(cell.rows))
            .wrapping_mul(31)
            .wrapping_add(cell.value.cast_unsigned());
    }
    sum
}

// One run over the places, which are given back.
fn run(rt: &HostRuntime, places: Vec<Place<i64>>, keys: u64) -> io::Result<Vec<Place<i64>>> {
    let mut groups = match OpenGroups::start(places) {
        Ok(groups) => groups,
        Err(places) => return Ok(places),
    };
    let start = Instant::now(rt)?;
    let turned_away = fill(&mut groups, keys);
    let added = start.elapsed(rt)?.as_micros();
    let sorting = Instant::now(rt)?;
    let sorted = groups.sort();
    let sorted_in = sorting.elapsed(rt)?.as_micros();
    let n = sorted.len();
    let sum = checksum(&sorted);
    println!(rt; "{n} groups, {turned_away} turned away, checksum {sum}")?;
    let linking = Instant::now(rt)?;
    let again = sorted.link();
    let linked_in = linking.elapsed(rt)?.as_micros();
    eprintln!(rt;
        "{n} groups: added in {added} us, sorted in {sorted_in} us, linked in {linked_in} us"
    )?;
    Ok(again.into_places())
}

fn main(rt: HostRuntime) -> io::Result<()> {
    let id = GroupId {
        column: 0,
        key: [0; 4],
    };
    let place = Place::new(Cell {
        id,
        rows: 0,
        value: 0i64,
    });
    let Ok(places) = vec![in rt.alloc(); place; PLACES] else {
        return Ok(());
    };
    let again = run(&rt, places, 50_000)?;
    let _places = run(&rt, again, 65_535)?;
    Ok(())
}
