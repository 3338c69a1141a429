// Running through any feed.
ghost use Rattle.std.specs.Prelude.{◌≡◌, ◌-◌, ◌^◌, min, [], length};

use crate::fault::Fault;
use crate::feed::Feed;

// What is left of a feed: how many rows, and its end.
#[derive(Clone, Copy)]
pub struct Left {
    pub rows: u64,
    pub end: Result<(), Fault>,
}

// Asks a feed until it ends. More rows than `u64` counts are told as the greatest `u64`.
pub fn exhaust<F: Feed>(feed: &mut F) -> Left
    ensures rows { result.rows ≡ min (length (F.Feed.coming feed.old)) (2 ^ 64 - 1) }
    ensures end { result.end ≡ F.Feed.ending feed.old }
    ensures none { F.Feed.coming feed.new ≡ [] }
    ensures same { (F.Feed.wide feed.new ≡ F.Feed.wide feed.old) × (F.Feed.ending feed.new ≡ F.Feed.ending feed.old) }
{
    let mut rows: u64 = 0;
    loop {
        match feed.next() {
            Ok(Some(_)) => rows = rows.saturating_add(1),
            Ok(None) => return Left { rows, end: Ok(()) },
            Err(fault) => return Left {
                rows,
                end: Err(fault),
            },
        }
    }
}
