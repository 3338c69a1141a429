// Plans, and the standing of one player.
use any_measure::any::{AnyMeasure, AnyValue};
use any_measure::over::{answer_over, joined};
use measures::measure::Measure;
use plan::reading::read_plan;

// Reads a plan, and tells what it has or where it is refused.
pub(crate) fn tell_plan(rt: &HostRuntime, text: &[u8]) -> anyhow::Result<()> {
    match read_plan(text) {
        Ok(plan) => {
            let columns = plan.len();
            println!(rt; "  accepted, columns: {columns}.")?;
        }
        Err(refusal) => println!(rt; "  refused: {refusal}.")?,
    }
    Ok(())
}

// One line of the standing: what is measured, and its answer.
fn tell_answer(
    rt: &HostRuntime,
    name: &str,
    kind: AnyMeasure,
    points: &[i32],
) -> anyhow::Result<()> {
    match answer_over(kind, points) {
        Some(answer) => println!(rt; "  {name}: {answer}")?,
        None => println!(rt; "  {name}: these are no row values")?,
    }
    Ok(())
}

pub(crate) fn tell_standing(rt: &HostRuntime, points: &[i32]) -> anyhow::Result<()> {
    tell_answer(rt, "games", AnyMeasure::Count, points)?;
    tell_answer(rt, "score", AnyMeasure::Sum, points)?;
    tell_answer(rt, "worst", AnyMeasure::Least, points)?;
    tell_answer(rt, "best", AnyMeasure::Greatest, points)?;
    tell_answer(rt, "mean", AnyMeasure::Mean, points)
}

// Two evenings joined: two games on Friday, three on Saturday.
pub(crate) fn tell_two_evenings(rt: &HostRuntime) -> anyhow::Result<()> {
    let mean = AnyMeasure::Mean;
    let friday = joined(&mean, &[2, 1]);
    let saturday = joined(&mean, &[0, 2, 1]);
    let both = mean.answer(mean.join(friday, saturday), 5);
    let friday = mean.answer(friday, 2);
    let saturday = mean.answer(saturday, 3);
    println!(rt; "Friday's mean is {friday}, Saturday's {saturday}.")?;
    println!(rt; "Joined they are {both}, and not the mean of two means.")?;
    Ok(())
}

// What a value from another hall has to pass before it is believed.
pub(crate) fn tell_checks(rt: &HostRuntime) -> anyhow::Result<()> {
    let least = AnyMeasure::Least;
    let written = 1_000_000_000u64.to_le_bytes();
    let read = match least.read(&written) {
        Some(_) => "a value",
        None => "nothing",
    };
    println!(rt; "A least of 1000000000, as eight bytes, reads as {read}: no row has it.")?;
    let possible = if AnyMeasure::Count.possible(AnyValue::Rows(6), 5) {
        ""
    } else {
        "not "
    };
    println!(rt; "A count of 6 is {possible}possible for 5 rows.")?;
    Ok(())
}
