// Turns shogs into whole needles: reads one shog a line from standard input, and prints the step taken for each.
#![tactic(auto)]

use needle::{Needles, join, split};
use refusal::Refusal;
use std::io;
use std::io::BufReader;
use std::num::{IntErrorKind, ParseIntError};
use words::lines;

// Why a line of the input is refused.
#[derive(Clone, Copy)]
enum Unsplit {
    Refused(Refusal),
    NoNumber,
}

impl From<Refusal> for Unsplit {
    fn from(refusal: Refusal) -> Unsplit {
        Unsplit::Refused(refusal)
    }
}

impl From<ParseIntError> for Unsplit {
    // A number that is too large for any shog is off the axis.
    fn from(error: ParseIntError) -> Unsplit {
        match *error.kind() {
            IntErrorKind::PosOverflow | IntErrorKind::NegOverflow => {
                Unsplit::Refused(Refusal::OffAxis)
            }
            _ => Unsplit::NoNumber,
        }
    }
}

// A shog, its needles, and the shog that they join to.
#[derive(Clone, Copy)]
struct Turned {
    shog: i16,
    needles: Needles,
    again: i16,
}

// How many lines were read, and what came of them.
#[derive(Clone, Copy)]
struct Tally {
    read: u64,
    split: u64,
    refused: u64,
}

// Splits the shog of a line, and joins it again.
fn turn(text: &str) -> Result<Turned, Unsplit> {
    let shog = text.parse::<i16>()?;
    let needles = split(shog)?;
    let again = join(needles.whole, needles.half)?;
    Ok(Turned {
        shog,
        needles,
        again,
    })
}

// One line: its step, or its refusal.
fn step(rt: &HostRuntime, tally: &mut Tally, text: &str) -> io::Result<()> {
    tally.read = tally.read.saturating_add(1);
    let number = tally.read;
    let why = match turn(text) {
        Ok(
            Turned {
                shog,
                needles,
                again,
            },
        ) => {
            tally.split = tally.split.saturating_add(1);
            return println!(rt; "line {number}: shog {shog} is {needles}; joined again {again}");
        }
        Err(why) => why,
    };
    tally.refused = tally.refused.saturating_add(1);
    match why {
        Unsplit::Refused(refusal) => println!(rt; "line {number}: {refusal}: {text}"),
        Unsplit::NoNumber => println!(rt;
            "line {number}: {}: \"{text}\" is no number",
            Refusal::OffAxis
        ),
    }
}

fn main(rt: HostRuntime) -> io::Result<()> {
    let heap = rt.alloc();
    let mut tally = Tally {
        read: 0,
        split: 0,
        refused: 0,
    };
    for line in lines(heap, BufReader::new(heap, rt.stdin())?) {
        step(&rt, &mut tally, line?.as_str())?;
    }
    let Tally {
        read,
        split,
        refused,
    } = tally;
    println!(rt; "read {read}, split {split}, refused {refused}")
}
