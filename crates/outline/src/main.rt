// Outline of a draft of lay points. Reads points in byte form from standard input, the first 16,000 bytes at most, puts them on a card of 500 pages, passes over refused ones and a broken last one,
// and writes the outline's bytes as they are. With the argument `hex` it writes them as hexadecimal capitals, with `tree` a picture of the tree, a line a page.
#![tactic(auto)]

use draft::calls::{Call, Reply};
use draft::run::run;
use kinds::kind::PointKind;
use kinds::lay::LayPoint;
use std::alloc::{AllocError, Global};
use std::io::{Read, Write};
use std::str::FromStr;
use std::{env, io};
use store::{PageStore, RowStore};

mod picture;

use picture::{RECORD, picture};

// How much of the input is read, and how many pages the card has.
const INPUT: u64 = 16000;

const PAGES: usize = 500;

// The first bytes of standard input.
fn read_input(rt: &HostRuntime) -> io::Result<Vec<u8>> {
    let mut bytes = Vec::new(rt.alloc());
    rt.stdin().take(INPUT).read_to_end(&mut bytes)?;
    Ok(bytes)
}

// A put for each whole point, and then the outline.
fn calls(heap: Global, bytes: &[u8]) -> Result<Vec<Call<LayPoint>>, AllocError> {
    let mut calls = Vec::new(heap);
    let (points, _broken) = bytes.as_chunks::<4>();
    for &[a, b, c, d] in points {
        let point = LayPoint {
            course: u16::from_le_bytes([a, b]),
            shog: i16::from_le_bytes([c, d]),
        };
        calls.push(Call::Put(point))?;
    }
    calls.push(Call::Outline(vec![in heap; 0; (PAGES - 1) * RECORD]?))?;
    Ok(calls)
}

// The outline of the last reply, none where it is none.
fn outlined(mut replies: Vec<Reply<LayPoint>>) -> Option<Vec<u8>> {
    match replies.pop() {
        Some(Reply::Outline(Ok(written), mut bytes)) => {
            bytes.truncate(written);
            Some(bytes)
        }
        _ => None,
    }
}

// How the outline is written: the argument's word as a value, so that one place names all words. A closure for each would have to be handed out.
#[derive(Clone, Copy)]
enum Form {
    Bytes,
    Hex,
    Tree,
}

// A word that names no form.
#[derive(Clone, Copy)]
struct Unnamed;

impl FromStr for Form {
    type Err = Unnamed;

    // The bytes have no word of their own.
    fn from_str(word: &str) -> Result<Form, Unnamed> {
        match word {
            "hex" => Ok(Form::Hex),
            "tree" => Ok(Form::Tree),
            _ => Err(Unnamed),
        }
    }
}

// Writes an outline.
fn write_out(rt: &HostRuntime, form: Form, bytes: &[u8]) -> io::Result<()> {
    match form {
        Form::Bytes => rt.stdout().write_all(bytes),
        Form::Hex => {
            for b in bytes {
                print!(rt; "{b:02X}")?;
            }
            Ok(())
        }
        Form::Tree => picture(rt, bytes),
    }
}

// The form that the last argument to name one names, and else the bytes.
fn form_of(rt: &HostRuntime) -> io::Result<Form> {
    let named = env::args(rt)?
        .skip(1)
        .filter_map(|word| word.as_str().parse::<Form>().ok());
    Ok(named.last().unwrap_or(Form::Bytes))
}

fn main(rt: HostRuntime) -> io::Result<()> {
    let heap = rt.alloc();
    let form = form_of(&rt)?;
    let input = read_input(&rt)?;
    let calls = calls(heap, &input)?;
    let replies = Vec::with_capacity(heap, calls.len())?;
    let card = RowStore::new(vec![in heap; 0; PAGES * 64]?);
    match run::<LayPoint, RowStore>(card, calls, replies) {
        Ok((_draft, replies)) => match outlined(replies) {
            Some(bytes) => write_out(&rt, form, &bytes),
            None => Ok(()),
        },
        Err((_halt, _card)) => Ok(()),
    }
}
