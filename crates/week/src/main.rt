// One hall's week, told from beginning to end: the plan, the early games, their standing, and the file of their groups.
#![tactic(auto)]

mod file;
mod games;
mod standing;

use games::{EARLY, PLAYER, SLIP};

// Monday's plan: the fields of a result row (points are half points: win 2, draw 1, loss 0; own and rating are the two
// players' ratings), and one column.
const MONDAY: &[u8] = b"rows player round opp points own rating
base PLAYER
score sum points where player = PLAYER
";

// On Wednesday the club adds a column of its own: opponents rated two hundred points above oneself.
const WEDNESDAY: &[u8] = b"rows player round opp points own rating
base PLAYER
score sum points where player = PLAYER
giants count where player = PLAYER and rating >= own + 200
";

// The same with a slip in the last line.
const MISSPELT: &[u8] = b"rows player round opp points own rating
base PLAYER
score sum points where player = PLAYER
giants count where player = PLAYER and rating >= owm + 200
";

fn tell(rt: &HostRuntime) -> anyhow::Result<()> {
    println!(rt; "Monday. The plan:")?;
    standing::tell_plan(rt, MONDAY)?;
    println!(rt; "The early games of player {PLAYER}, in half points:")?;
    let points = games::tell_games(rt, EARLY)?;
    let rows = points.len();
    println!(rt; "{rows} rows taken. The standing after them:")?;
    standing::tell_standing(rt, points.as_slice())?;
    println!(rt; "Before the first game it is:")?;
    standing::tell_standing(rt, &[])?;
    standing::tell_two_evenings(rt)?;
    println!(rt; "Tuesday. The next sheet has a slip in its second line:")?;
    let more = games::tell_games(rt, SLIP)?;
    let rows = more.len();
    println!(rt; "{rows} row came before it, and stays.")?;
    println!(rt; "Wednesday. The club's own column, misspelt and then mended:")?;
    standing::tell_plan(rt, MISSPELT)?;
    standing::tell_plan(rt, WEDNESDAY)?;
    println!(rt; "Thursday. All early games, grouped by player:")?;
    file::tell_groups(rt, EARLY)?;
    standing::tell_checks(rt)
}

fn main(rt: HostRuntime) -> anyhow::Result<()> {
    tell(&rt)
}
