// Places a motif: reads an origin (course and shog) from the first line of standard input, a temporary origin from the second and the motif from the others, a lay point a line, and prints the steps taken.
#![tactic(auto)]

ghost use Rattle.std.specs.Prelude.{◌≡◌, MatchResult};
ghost use Rattle.refusal.specs.Numbers.{number as numbered};
ghost use Rattle.motif.specs.Pairs.{OnBoth, Same};

use kinds::lay::LayPoint;
use origin::{Origin, Temporary, place, place_all};
use refusal::Refusal;
use std::io;
use std::io::{BufRead, BufReader};
use words::{Texts, lines, number};

// Two whole numbers, on their axes or not.
#[derive(Clone, Copy)]
struct Pair {
    course: i64,
    shog: i64,
}

impl TryFrom<Pair> for LayPoint {
    type Error = Refusal;

    // The lay point of the two numbers. Refused where one of them is too large for any.
    ghost try_from_gives = { λ pair r. MatchResult r (λ p. Same pair.course pair.shog p.course p.shog) (λ e. (OnBoth pair.course pair.shog → ⊥) × (numbered e ≡ 3)) };

    fn try_from(pair: Pair) -> Result<LayPoint, Refusal> {
        let course = u16::try_from(pair.course).map_err(|_| Refusal::OffAxis)?;
        let shog = i16::try_from(pair.shog).map_err(|_| Refusal::OffAxis)?;
        Ok(LayPoint { course, shog })
    }
}

impl TryFrom<Pair> for Origin {
    type Error = Refusal;

    // The origin of the two numbers. Refused off the axes.
    ghost try_from_gives = { λ pair r. MatchResult r (λ o. Same pair.course pair.shog o.course o.shog) (λ e. (OnBoth pair.course pair.shog → ⊥) × (numbered e ≡ 3)) };

    fn try_from(pair: Pair) -> Result<Origin, Refusal> {
        let LayPoint { course, shog } = LayPoint::try_from(pair)?;
        Origin::new(course, shog)
    }
}

// A line of the motif: its number, and its point, or the refusal of numbers that are too large for any.
#[derive(Clone, Copy)]
struct Drawn {
    line: u64,
    point: Result<LayPoint, Refusal>,
}

// The numbers of a line, if it has just two.
fn read_pair(text: &str) -> Option<Pair> {
    let mut words = text.split_whitespace();
    let (Some(course), Some(shog), None) = (words.next(), words.next(), words.next()) else {
        return None;
    };
    Some(Pair {
        course: number(course)?,
        shog: number(shog)?,
    })
}

// The origin of a line, or in words why there is none.
fn read_origin(rt: &HostRuntime, line: u64, text: Option<String>) -> io::Result<Option<Origin>> {
    let Some(text) = text else {
        println!(rt; "line {line}: there is none, and an origin should stand there")?;
        return Ok(None);
    };
    let text = text.as_str();
    let Some(pair) = read_pair(text) else {
        println!(rt; "line {line}: \"{text}\" is no origin: two whole numbers make one")?;
        return Ok(None);
    };
    match Origin::try_from(pair) {
        Ok(origin) => Ok(Some(origin)),
        Err(refusal) => {
            println!(rt; "line {line}: {refusal}: \"{text}\"")?;
            Ok(None)
        }
    }
}

// The motif: the points of all the lines that are left. A line that is no point is answered in words and passed over.
fn read_motif<R: BufRead + Drop>(rt: &HostRuntime, texts: Texts<R>) -> io::Result<Vec<Drawn>> {
    let mut motif = Vec::new(rt.alloc());
    for (line, text) in (3u64..).zip(texts) {
        let text = text?;
        let text = text.as_str();
        match read_pair(text) {
            Some(pair) => {
                let point = LayPoint::try_from(pair);
                motif.push(Drawn { line, point })?;
            }
            None => println!(rt;
                "line {line}: \"{text}\" is no point: two whole numbers make one"
            )?,
        }
    }
    Ok(motif)
}

// Places each point of the motif, and prints what came of it.
fn show_each<F: Fn(LayPoint) -> Result<LayPoint, Refusal>>(
    rt: &HostRuntime,
    motif: &[Drawn],
    placed: F,
) -> io::Result<()>
    requires { F.IsAlwaysCallable placed }
{
    for Drawn { line, point } in motif {
        let point = match point {
            Ok(point) => *point,
            Err(refusal) => {
                println!(rt; "line {line}: {refusal}")?;
                continue;
            }
        };
        match placed(point) {
            Ok(place) => println!(rt; "line {line}: {point} is placed at {place}")?,
            Err(refusal) => println!(rt; "line {line}: {point} is {refusal}")?,
        }
    }
    Ok(())
}

// Places each point of the motif at an origin.
fn show_placed(rt: &HostRuntime, origin: Origin, motif: &[Drawn]) -> io::Result<()> {
    println!(rt; "origin: {origin}")?;
    show_each(rt, motif, |point| place(origin, point))
}

// Places each point of the motif through a temporary origin. The origin is as before, even where a line cannot be printed.
fn show_through(
    rt: &HostRuntime,
    origin: &mut Origin,
    other: Origin,
    motif: &[Drawn],
) -> io::Result<()>
    ensures { origin.new ≡ origin.old }
{
    let temporary = Temporary::set(origin, other);
    let stands = temporary.get();
    println!(rt; "temporary origin: {stands}")?;
    show_each(rt, motif, |point| temporary.place(point))?;
    temporary.end();
    Ok(())
}

// Places the points of a motif, where each of its lines has one. The origin is as before.
fn place_points(
    origin: &mut Origin,
    other: Origin,
    points: Result<Vec<LayPoint>, Refusal>,
) -> Result<(), Refusal>
    ensures { origin.new ≡ origin.old }
{
    let mut points = points?;
    place_all(origin, other, &mut points)
}

// Places the motif as one, which is refused where a point of it is, and prints what came of it. The origin is as before.
fn show_whole(
    rt: &HostRuntime,
    origin: &mut Origin,
    other: Origin,
    motif: &[Drawn],
) -> io::Result<()>
    ensures { origin.new ≡ origin.old }
{
    let points: Result<Vec<LayPoint>, Refusal> = motif
        .iter()
        .map(|drawn| drawn.point)
        .collect(rt.alloc())?;
    match place_points(origin, other, points) {
        Ok(()) => println!(rt; "the whole motif is placed there"),
        Err(refusal) => println!(rt; "the whole motif there: {refusal}"),
    }
}

fn main(rt: HostRuntime) -> io::Result<()> {
    let mut texts = lines(rt.alloc(), BufReader::new(rt.alloc(), rt.stdin())?);
    let Some(mut origin) = read_origin(&rt, 1, texts.next().transpose()?)? else {
        return Ok(());
    };
    let Some(other) = read_origin(&rt, 2, texts.next().transpose()?)? else {
        return Ok(());
    };
    let motif = read_motif(&rt, texts)?;
    show_placed(&rt, origin, &motif)?;
    show_through(&rt, &mut origin, other, &motif)?;
    show_whole(&rt, &mut origin, other, &motif)?;
    println!(rt; "the first origin stands again: {origin}")
}
