// Shows how points are coded: reads one point a line from standard input, two numbers for a lay point (course and shog) or three for a bar point (course, bar and shog), and prints the steps taken.
#![tactic(auto)]

ghost use Rattle.kinds.specs.Kind.{On};

use kinds::bar::BarPoint;
use kinds::kind::PointKind;
use kinds::lay::LayPoint;
use kinds::points::depth;
use query::coordinates::Coordinates;
use std::io::BufReader;
use std::{fmt, io};
use words::{lines, number};

// One word more than any point has: no further one is read.
const WORDS: usize = 4;

// Why a line is not shown.
#[derive(Drop)]
enum Unshown {
    // a number is off its axis
    OffAxis,
    // anything else than two or three whole numbers
    NoPoint,
    Failed(io::Error),
}

impl From<io::Error> for Unshown {
    fn from(error: io::Error) -> Unshown {
        Unshown::Failed(error)
    }
}

// A kind whose points the program shows.
trait Shown: Coordinates + fmt::Display {
    // Prints what the point is called, and its raised values.
    fn show_raised(&self, rt: &HostRuntime) -> io::Result<()>
        requires { On Self.PointKind.kind self.now };
}

impl Shown for LayPoint {
    fn show_raised(&self, rt: &HostRuntime) -> io::Result<()> {
        let [course, shog] = self.raised();
        println!(rt; "lay point, {self}")?;
        println!(rt; "  raised course {course}, shog {shog}")
    }
}

impl Shown for BarPoint {
    fn show_raised(&self, rt: &HostRuntime) -> io::Result<()> {
        let [course, bar, shog] = self.raised();
        println!(rt; "bar point, {self}")?;
        println!(rt; "  raised course {course}, bar {bar}, shog {shog}")
    }
}

// The code of a point, in decimal and in W bits, and how many first bits it shares with the point before, if there is one of the kind.
fn show_code<K: PointKind>(rt: &HostRuntime, before: Option<K>, point: K) -> io::Result<()>
    requires { On K.PointKind.kind point }
{
    let code = point.code();
    // no `From` makes a `usize` of a `u32`
    let width = K::BITS as usize;
    println!(rt; "  code {code}")?;
    println!(rt; "  bits {code:0width$b}")?;
    if let Some(other) = before
        && other.on_axes()
    {
        let n = depth(&other, &point);
        return println!(rt; "  first bits shared with the line before: {n}");
    }
    println!(rt; "  no point of this kind in the line before")
}

// Prints the steps of the point of a kind that has these coordinates.
fn show_point<K: Shown>(
    rt: &HostRuntime,
    before: &[i64],
    coordinates: &[i64],
) -> Result<(), Unshown> {
    let point = K::at(coordinates).ok_or(Unshown::OffAxis)?;
    point.show_raised(rt)?;
    show_code(rt, K::at(before), point)?;
    Ok(())
}

// Prints the steps of a line's numbers, behind the numbers of the line before.
fn show(rt: &HostRuntime, before: &[i64], numbers: &[i64]) -> Result<(), Unshown> {
    match numbers.len() {
        2 => show_point::<LayPoint>(rt, before, numbers),
        3 => show_point::<BarPoint>(rt, before, numbers),
        _ => Err(Unshown::NoPoint),
    }
}

fn main(rt: HostRuntime) -> io::Result<()> {
    let heap = rt.alloc();
    let mut before = Vec::new(heap);
    for (count, line) in (1u64..).zip(lines(heap, BufReader::new(heap, rt.stdin())?)) {
        let line = line?;
        let text = line.as_str();
        print!(rt; "line {count}: ")?;
        let words = text.split_whitespace().take(WORDS);
        let numbers: Option<Vec<i64>> = words.map(number).collect(heap)?;
        let numbers = numbers.unwrap_or(Vec::new(heap));
        match show(&rt, &before, &numbers) {
            Ok(()) => {}
            Err(Unshown::OffAxis) => println!(rt; "\"{text}\" is off an axis")?,
            Err(Unshown::NoPoint) => println!(rt;
                "\"{text}\" is no point: two whole numbers make a lay point, three a bar point"
            )?,
            Err(Unshown::Failed(error)) => return Err(error),
        }
        before = numbers;
    }
    Ok(())
}
