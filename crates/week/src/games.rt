// The games of one player, from a sheet of all games.
use anyhow::anyhow;
use feeds::fault::Fault;
use feeds::feed::Feed;
use feeds::row::Row;
use feeds::section::Section;
use feeds::sheet::SheetFeed;
use text::refusal::Refusal;

// The player whose games are followed, and where a row has what.
pub(crate) const PLAYER: i32 = 7;

pub(crate) const WIDTH: u8 = 6;

const PLAYER_FIELD: usize = 0;

// The early games, by the fields of the plan. The fourth opponent of player 7 did not come, and the fifth round was a bye:
// rows like any other.
pub(crate) const EARLY: &[u8] = b"7 1 3 2 1500 1650
3 1 7 0 1650 1500
7 2 5 1 1500 1720
5 2 7 1 1720 1500
7 3 2 0 1500 1810
7 4 9 2 1500 1400
7 5 0 1 1500 0
";

// The same hall's next sheet, with a slip in its second line.
pub(crate) const SLIP: &[u8] = b"7 6 4 2 1500 1590
7 07 1 1 1500 1600
7 8 2 2 1500 1810
";

// Points are a value of a row like any other: a type for them would have to take every number.
fn result_name(points: i32) -> &'static str {
    match points {
        2 => "a win",
        1 => "a draw",
        _ => "a loss",
    }
}

// A refusal that ends the account: the texts here are written so that none comes.
pub(crate) fn unforeseen(refusal: Refusal) -> anyhow::Error {
    match refusal {
        Refusal::FeedRange => anyhow!("a feed was asked for that cannot be"),
        _ => anyhow!("a part of the account was refused"),
    }
}

fn tell_end(rt: &HostRuntime, end: Result<(), Fault>) -> anyhow::Result<()> {
    let Err(fault) = end else {
        println!(rt; "  the end, clean.")?;
        return Ok(());
    };
    let number = fault.number();
    let layer = fault.layer();
    let place = fault.place();
    println!(rt; "  refused: number {number}, {layer}, line {place}.")?;
    Ok(())
}

// Tells a game, and gives its points.
fn tell_game(rt: &HostRuntime, row: &Row) -> anyhow::Result<i32> {
    let [_, round, opponent, scored, ..] = *row;
    let name = result_name(scored);
    println!(rt; "  round {round} against {opponent}: {name}, {scored}")?;
    Ok(scored)
}

// Takes the rows of a feed, tells each and the end, and gives their points.
fn points_of<F: Feed>(rt: &HostRuntime, feed: &mut F) -> anyhow::Result<Vec<i32>> {
    let mut points = Vec::new(rt.alloc());
    let end = loop {
        match feed.next() {
            Ok(Some(row)) => points.push(tell_game(rt, &row)?)?,
            Ok(None) => break Ok(()),
            Err(fault) => break Err(fault),
        }
    };
    tell_end(rt, end)?;
    Ok(points)
}

// The points of the player whose games are followed, from a sheet of all games.
pub(crate) fn tell_games(rt: &HostRuntime, text: &[u8]) -> anyhow::Result<Vec<i32>> {
    let sheet = SheetFeed::new(text, usize::from(WIDTH)).map_err(unforeseen)?;
    match Section::new(sheet, PLAYER_FIELD, PLAYER) {
        Ok(mut games) => points_of(rt, &mut games),
        Err((_, refusal)) => Err(unforeseen(refusal)),
    }
}
