// The words of a command as numbers, points and windows.
ghost use Rattle.std.specs.Prelude.{◌≡◌, IfErr};
ghost use Rattle.session.specs.declared.said.Unsaid.TheVariants.{Refused, Unreadable, OutOfMemory};
ghost use Rattle.session.specs.Said.{OffAxisAlone};

use query::choice::{Choice, window};
use query::coordinates::Coordinates;
use query::window::Window;
use refusal::Refusal;
use std::alloc::{AllocError, Global};
use std::fmt;
use words::number;

// Why words say nothing that can be done.
#[derive(Drop)]
pub enum Unsaid {
    // whole numbers, one of them off its axis
    Refused(Refusal),
    Unreadable(Trouble),
    OutOfMemory(AllocError),
}

impl From<Refusal> for Unsaid {
    ghost from_gives = { λ x y. y ≡ Refused x };

    fn from(why: Refusal) -> Unsaid {
        Unsaid::Refused(why)
    }
}

impl From<Trouble> for Unsaid {
    ghost from_gives = { λ x y. y ≡ Unreadable x };

    fn from(why: Trouble) -> Unsaid {
        Unsaid::Unreadable(why)
    }
}

impl From<AllocError> for Unsaid {
    ghost from_gives = { λ x y. y ≡ OutOfMemory x };

    fn from(error: AllocError) -> Unsaid {
        Unsaid::OutOfMemory(error)
    }
}

// Why words cannot be read.
#[derive(Clone, Copy)]
pub enum Trouble {
    Begin,
    Kind,
    Pages,
    Point,
    Window,
    List,
    Outline,
    Command,
    NoDraft,
}

impl fmt::Display for Trouble {
    fn fmt<W: fmt::Write>(&self, f: &mut fmt::Formatter<W>) -> fmt::Result {
        f.write_str(match self {
            Trouble::Begin => "begin takes a kind and a number of pages",
            Trouble::Kind => "the kind is lay or bar",
            Trouble::Pages => "the number of pages is a whole number",
            Trouble::Point => "a point has a whole number for each axis",
            Trouble::Window => "a window has *, a number or A..B for each axis",
            Trouble::List => "list takes points to pass over, places and a window",
            Trouble::Outline => "outline takes the length of its buffer",
            Trouble::Command => "no such command",
            Trouble::NoDraft => "no draft was begun",
        })
    }
}

// The most words that a window is read from. No kind has more axes.
const MOST_CHOICES: usize = 4;

// A number of pages. No card has more than 65,535, so a larger number counts as one more than that, and one below 0 as 0.
pub fn page_count(word: &str) -> Option<usize> {
    usize::try_from(number(word)?.clamp(0, 65536)).ok()
}

// A number of points: any number that is not negative.
pub fn amount(word: &str) -> Option<usize> {
    usize::try_from(number(word)?).ok()
}

// What a word asks of an axis: `*`, one number, or two with `..` between them.
fn choice(word: &str) -> Option<Choice> {
    if word == "*" {
        return Some(Choice::Any);
    }
    match word.split_once("..") {
        Some((low, high)) => Some(Choice::Range(number(low)?, number(high)?)),
        None => Some(Choice::One(number(word)?)),
    }
}

// The window of a query: a word for each axis. Refused only where a number is off its axis.
pub fn window_of<K: Coordinates>(heap: Global, words: &[&str]) -> Result<Window<K>, Unsaid>
    ensures { IfErr result OffAxisAlone }
{
    if words.len() > MOST_CHOICES || K::span(words.len()).is_some() {
        return Err(Unsaid::Unreadable(Trouble::Window));
    }
    let query: Option<Vec<Choice>> = words.iter().map(|word| choice(*word)).collect(heap)?;
    let query = query.ok_or(Trouble::Window)?;
    Ok(window(&query)?)
}

// Whether there is just one word for each axis.
fn one_for_each_axis<K: Coordinates>(words: &[&str]) -> bool {
    let count = words.len();
    (0..count).all(|axis| K::span(axis).is_some()) && K::span(count).is_none()
}

// The point of a kind: a word for each axis, as `COURSE SHOG`. Refused only where a number is off its axis.
pub fn point_of<K: Coordinates>(heap: Global, words: &[&str]) -> Result<K, Unsaid>
    ensures { IfErr result OffAxisAlone }
{
    if !one_for_each_axis::<K>(words) {
        return Err(Unsaid::Unreadable(Trouble::Point));
    }
    let coordinates: Option<Vec<i64>> = words.iter().map(|word| number(*word)).collect(heap)?;
    let coordinates = coordinates.ok_or(Trouble::Point)?;
    Ok(K::at(&coordinates).ok_or(Refusal::OffAxis)?)
}
