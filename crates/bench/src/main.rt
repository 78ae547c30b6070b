//! Measures the lowest layers. `bench NAME SIZE` prints what comes of one part (`parts.rt` has their names) over a text that it makes
//! first, and the nanoseconds that it takes. Without a word all of them are small, and no times are printed: what they come to is
//! the same in each run. What a whole run takes is counted over the built program (bench/stages.sh and others beside it).
#![tactic(auto)]

mod files;
mod meter;
mod parts;
mod texts;

use crate::meter::Meter;
use crate::parts::{BenchPart, PARTS};
use crate::texts::repeated;
use std::env;
use std::test::Fail;

/// What comes of a part over a text that is so large.
fn done(
    rt: &HostRuntime,
    meter: &mut Meter<'_>,
    part: &BenchPart,
    size: usize,
) -> Result<usize, Fail> {
    let text = repeated(rt.alloc(), part.piece, size)?;
    meter.start();
    part.done(meter, rt.alloc(), text.as_str())
}

/// Measures a part of a size, and prints that.
fn measure(rt: &HostRuntime, part: &BenchPart, size: usize) -> Result<(), Fail> {
    let mut meter = Meter::new(rt);
    let count = done(rt, &mut meter, part, size)?;
    let took = meter.nanoseconds();
    Ok(println!(rt; "{} {count} {took} ns", part.name)?)
}

/// Prints what comes of each part of its small size.
fn measure_all(rt: &HostRuntime) -> Result<(), Fail> {
    for part in &PARTS {
        let count = done(rt, &mut Meter::new(rt), part, part.small)?;
        println!(rt; "{} {count}", part.name)?;
    }
    Ok(())
}

/// Measures the part that the words name, and all parts without words.
fn measure_asked(rt: &HostRuntime, words: &[String]) -> Result<(), Fail> {
    let Some(name) = words.first() else {
        return measure_all(rt);
    };
    let size = words.get(1).and_then(|size| size.parse::<usize>().ok());
    match PARTS.iter().find(|part| part.name == name.as_str()) {
        Some(part) => measure(rt, part, size.unwrap_or(part.small)),
        None => Err(Fail::new("no such part")),
    }
}

fn main(rt: HostRuntime) -> Result<(), Fail> {
    let words: Vec<String> = env::args(&rt)?.skip(1).collect(rt.alloc())?;
    measure_asked(&rt, words.as_slice())
}
