// Reads plans, each on a line of its own behind what it should give, and tells which give something else.
// A line has three numbers and the plan with `|` for a line feed. The numbers are those of the refusal (number,
// line, word); for a plan that is accepted they are 0, how many row names and how many columns it has.
#![tactic(auto)]

use plan::reading::read_plan;
use std::io;
use text::refusal::Refusal;

// Room for a text of one byte more than a plan may have, and some.
const ROOM: usize = 5000;

// What a plan gives.
#[derive(Clone, Copy, PartialEq, Eq, Debug)]
enum Given {
    Accepted {
        rows: usize,
        columns: usize,
    },
    Refused {
        number: usize,
        line: usize,
        word: usize,
    },
}

impl From<Refusal> for Given {
    fn from(refusal: Refusal) -> Given {
        let (line, word) = match refusal {
            Refusal::PlanForm { line, word }
            | Refusal::NameTaken { line, word }
            | Refusal::UnknownField { line, word }
            | Refusal::PlanLimit { line, word } => (line, word),
            _ => (0, 0),
        };
        Given::Refused {
            number: usize::from(refusal.number()),
            line,
            word,
        }
    }
}

fn outcome(text: &[u8]) -> Given {
    match read_plan(text) {
        Ok(plan) => Given::Accepted {
            rows: plan.names.rows.len(),
            columns: plan.len(),
        },
        Err(refusal) => Given::from(refusal),
    }
}

// The number that a part of a line writes, each byte taken for a digit; 0 where there is no such part.
fn number_of(part: Option<&str>) -> usize {
    part.unwrap_or("").bytes().fold(0, |value: usize, byte| {
        value
            .wrapping_mul(10)
            .wrapping_add(usize::from(byte).wrapping_sub(48))
    })
}

// What a line says that its plan gives, and the plan.
fn case_of(line: &str) -> (Given, &str) {
    let mut parts = line.splitn(4, ' ');
    let number = number_of(parts.next());
    let first = number_of(parts.next());
    let second = number_of(parts.next());
    let given = match number {
        0 => Given::Accepted {
            rows: first,
            columns: second,
        },
        _ => Given::Refused {
            number,
            line: first,
            word: second,
        },
    };
    (given, parts.next().unwrap_or(""))
}

// The text of a plan, in a room for it; what goes past the room is left out, and the text is too long all the same.
fn text_in<'r>(room: &'r mut [u8; ROOM], plan: &str) -> &'r [u8] {
    let used = plan.len().min(ROOM);
    for (place, byte) in room[..used].iter_mut().zip(plan.bytes()) {
        *place = if byte == b'|' { b'\n' } else { byte };
    }
    &room[..used]
}

// Whether a line's plan gives what stands before it.
fn is_right(line: &str) -> bool {
    let (given, plan) = case_of(line);
    let mut room = [0; ROOM];
    outcome(text_in(&mut room, plan)) == given
}

fn main(rt: HostRuntime) -> io::Result<()> {
    let mut plans = 0u32;
    let mut wrong = 0u32;
    for line in rt.lines(rt.alloc()) {
        let line = line?;
        plans = plans.wrapping_add(1);
        if !is_right(&line) {
            wrong = wrong.wrapping_add(1);
            println!(rt; "wrong at line {plans}")?;
        }
    }
    println!(rt; "{plans} plans, {wrong} wrong")
}
