// Calls in words.
ghost use Rattle.std.specs.Prelude.{IfErr};
ghost use Rattle.session.specs.Said.{OffAxisAlone};

use crate::said::{Trouble, Unsaid, amount, page_count, point_of, window_of};
use draft::calls::Call;
use query::coordinates::Coordinates;
use std::alloc::Global;
use std::str::FromStr;

// What points a draft is of.
#[derive(Clone, Copy)]
pub enum Kind {
    Lay,
    Bar,
}

impl FromStr for Kind {
    type Err = Trouble;

    fn from_str(word: &str) -> Result<Kind, Trouble> {
        match word {
            "lay" => Ok(Kind::Lay),
            "bar" => Ok(Kind::Bar),
            _ => Err(Trouble::Kind),
        }
    }
}

// `begin lay N` or `begin bar N`: the kind, and the number of pages.
pub fn begun(words: &[&str]) -> Result<(Kind, usize), Trouble> {
    let [_, kind, pages] = words else {
        return Err(Trouble::Begin);
    };
    let kind = kind.parse::<Kind>()?;
    Ok((kind, page_count(*pages).ok_or(Trouble::Pages)?))
}

// The most places that `list` is lent, and the most bytes that `outline` is.
const MOST_PLACES: usize = 1000;

const MOST_BYTES: usize = 1000000;

// `list SKIP PLACES`, and a window.
fn list_call<K: Coordinates + Clone>(heap: Global, words: &[&str]) -> Result<Call<K>, Unsaid>
    ensures { IfErr result OffAxisAlone }
{
    let [skip, places, window @ ..] = words else {
        return Err(Unsaid::Unreadable(Trouble::List));
    };
    let skip = amount(*skip).ok_or(Trouble::List)?;
    let places = amount(*places).ok_or(Trouble::List)?;
    let window = window_of::<K>(heap, window)?;
    let buffer = vec![in heap; window.low; places.min(MOST_PLACES)]?;
    Ok(Call::List(window, skip, buffer))
}

// The call that some words say.
pub fn call_of<K: Coordinates + Clone>(heap: Global, words: &[&str]) -> Result<Call<K>, Unsaid>
    ensures { IfErr result OffAxisAlone }
{
    match words {
        ["put", point @ ..] => Ok(Call::Put(point_of(heap, point)?)),
        ["take", point @ ..] => Ok(Call::Take(point_of(heap, point)?)),
        ["ask", point @ ..] => Ok(Call::Ask(point_of(heap, point)?)),
        ["pick", window @ ..] => Ok(Call::Pick(window_of(heap, window)?)),
        ["count", window @ ..] => Ok(Call::Count(window_of(heap, window)?)),
        ["list", rest @ ..] => list_call(heap, rest),
        ["tally"] => Ok(Call::Tally),
        ["outline", places] => {
            let places = amount(*places).ok_or(Trouble::Outline)?;
            Ok(Call::Outline(vec![in heap; 0; places.min(MOST_BYTES)]?))
        }
        _ => Err(Unsaid::Unreadable(Trouble::Command)),
    }
}
