// Judges files and other bytes, and every single byte of a file changed; tools/hall_file_cases.py made the
// cases, and judges them independently.
#![tactic(auto)]

mod cases;

use any_measure::any::AnyMeasure;
use hall_file::check::check;
use std::alloc::{AllocError, Global};

fn is_well_made(bytes: &[u8]) -> bool {
    check::<AnyMeasure>(bytes).is_ok()
}

// Two words of one bool: a type that has them as its text would say no more.
fn word(well_made: bool) -> &'static str {
    if well_made { "well made" } else { "refused" }
}

fn judge(rt: &HostRuntime, name: &str, bytes: &[u8]) -> anyhow::Result<()> {
    let verdict = word(is_well_made(bytes));
    println!(rt; "{name}: {verdict}")?;
    Ok(())
}

// A file of a count with so many groups of one row each.
fn of_groups(heap: Global, count: u16) -> Result<Vec<u8>, AllocError> {
    let mut file = Vec::new(heap);
    let [low, high] = count.to_le_bytes();
    file.extend_from_slice(&[
        b'T', b'L', b'Y', 1, 0, 1, 1, low, high, 0, 0, 1, 255, 1, low, high,
    ])?;
    for key in 0..count {
        let [k0, k1] = key.to_le_bytes();
        file.extend_from_slice(&[k0, k1, 0, 0, 1, 0, 0, 0, 1, 0, 0, 0, 0, 0, 0, 0])?;
    }
    Ok(file)
}

// The verdict on the file of several columns with some bits of one byte flipped.
fn sign(index: usize, flip: u8) -> &'static str {
    let mut bytes = cases::SEVERAL;
    if let Some(byte) = bytes.get_mut(index) {
        *byte ^= flip;
    }
    if is_well_made(&bytes) { "+" } else { "-" }
}

fn main(rt: HostRuntime) -> anyhow::Result<()> {
    for (name, bytes) in cases::CASES.iter() {
        judge(&rt, name, bytes)?;
    }
    let many = of_groups(rt.alloc(), 65_535)?;
    judge(&rt, "65535 groups", many.as_slice())?;
    judge(&rt, "several columns", &cases::SEVERAL)?;
    // by place: the place itself is told, and each sign changes a copy of its own there
    for i in 0..cases::SEVERAL.len() {
        println!(rt;
            "byte {}: {}{}{}{}",
            i,
            sign(i, 0x01),
            sign(i, 0x04),
            sign(i, 0x80),
            sign(i, 0xff)
        )?;
    }
    Ok(())
}
