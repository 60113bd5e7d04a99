// The words and the lines of an input, as every program reads them.
#![tactic(auto)]

ghost use Rattle.std.specs.Prelude.{◌≡◌, IfOk, string_bytes};
ghost use Rattle.std.specs.Str.{trim};
ghost use Rattle.std.specs.Str.Lossy.{utf8_lossy};
ghost use Rattle.std.specs.Io.Iter.{split_byte, split_known_bytes, pieces_left_to_read, YieldsKnownPiece};
ghost use Rattle.std.specs.Iterator.{at_most};
ghost use Rattle.words.specs.Numbers.{NumberSays};
ghost use Rattle.words.specs.Lines.{first_text};

use std::alloc::{AllocError, Global};
use std::io;
use std::io::{BufRead, Split};
use std::num::IntErrorKind;

// The whole number that a word writes in decimal digits, with a sign or none before them. One that is too large for 64 bits becomes the greatest or the smallest of these, which is off every axis.
pub fn number(word: &str) -> Option<i64>
    ensures { NumberSays word.now result }
{
    match word.parse::<i64>() {
        Ok(number) => Some(number),
        Err(error) => match *error.kind() {
            IntErrorKind::PosOverflow => Some(i64::MAX),
            IntErrorKind::NegOverflow => Some(i64::MIN),
            _ => None,
        },
    }
}

// The text that some bytes hold, without the blanks around it. What is no UTF-8 becomes U+FFFD.
pub fn text(heap: Global, bytes: &[u8]) -> Result<String, AllocError>
    ensures { IfOk result (λ t. string_bytes t ≡ trim (utf8_lossy bytes.now)) }
{
    trimmed(heap, String::from_utf8_lossy(heap, bytes)?)
}

// A text without the blanks around it. Those behind it are cut off where they stand; it is copied only where there are some before it.
fn trimmed(heap: Global, mut whole: String) -> Result<String, AllocError>
    ensures { IfOk result (λ t. string_bytes t ≡ trim (string_bytes whole)) }
{
    let front = whole.as_str().trim_start();
    if front.len() < whole.len() {
        return String::from_str(heap, front.trim_end());
    }
    let end = front.trim_end().len();
    whole.truncate(end);
    Ok(whole)
}

// The text of a line. Its bytes are given back to the heap before a copy is made.
fn line_text(heap: Global, line: Vec<u8>) -> Result<String, AllocError>
    ensures { IfOk result (λ t. string_bytes t ≡ trim (utf8_lossy line.items)) }
{
    let whole = String::from_utf8_lossy(heap, &line)?;
    drop(line);
    trimmed(heap, whole)
}

// The texts of the lines of an input, from the next one on.
#[derive(Drop)]
pub struct Texts<R> {
    pieces: Split<R>,
    heap: Global,
}

// The texts of all lines that are left in an input, each without the blanks around it. A last line with no line break at its end is one too.
pub fn lines<R: BufRead>(heap: Global, input: R) -> Texts<R>
    ensures breaks { split_byte result.pieces ≡ 10 }
    ensures bytes { split_known_bytes R.Read.remaining result.pieces ≡ R.Read.remaining input }
{
    Texts {
        pieces: input.split(heap, b'\n'),
        heap,
    }
}

impl<R: BufRead + Drop> Iterator for Texts<R> {
    type Item = io::Result<String>;

    ghost next_gives = { λ s r t. YieldsKnownPiece string_bytes (first_text (split_byte s.pieces)) (split_byte s.pieces)
        (split_known_bytes R.Read.remaining s.pieces) r (split_known_bytes R.Read.remaining t.pieces) };

    ghost remaining = { λ s. at_most (pieces_left_to_read s.pieces) };

    fn next(&mut self) -> Option<io::Result<String>> {
        match self.pieces.next()? {
            Ok(line) => Some(line_text(self.heap, line).map_err(io::Error::from)),
            Err(error) => Some(Err(error)),
        }
    }
}

#[cfg(test)]
mod tests {
    use super::*;
    use std::test::Fail;

    #[test]
    fn numbers(rt: HostRuntime) {
        let said = [
            ("0", Some(0)),
            ("-2048", Some(-2048)),
            ("+7", Some(7)),
            ("9223372036854775807", Some(i64::MAX)),
            ("9223372036854775808", Some(i64::MAX)),
            ("-9223372036854775808", Some(i64::MIN)),
            ("-9223372036854775809", Some(i64::MIN)),
            ("99999999999999999999", Some(i64::MAX)),
            ("", None),
            ("-", None),
            ("seven", None),
            ("3.5", None),
            ("+-3", None),
            (" 1", None),
        ];
        for (word, expected) in said {
            assert_eq!(rt; number(word), expected);
        }
    }

    #[test]
    fn texts(rt: HostRuntime) -> Result<(), Fail> {
        let heap = rt.alloc();
        assert_eq!(rt; text(heap, b" \t12  5\r\n")?.as_str(), "12  5");
        assert_eq!(rt; text(heap, b"caf\xe9 3")?.as_str(), "caf\u{FFFD} 3");
        assert_eq!(rt; text(heap, b"\n")?.as_str(), "");
        assert_eq!(rt; text(heap, b"7 \xe2\x80\x83")?.as_str(), "7");
        assert_eq!(rt; text(heap, b"\xc3\xa9\r")?.as_str(), "\u{E9}");
        assert_eq!(rt; text(heap, b"\xe2\x80\x83 \xc3\xa9")?.as_str(), "\u{E9}");
        Ok(())
    }

    // An empty line, one that ends in a carriage return, one that is no UTF-8, and a last one with no line break.
    #[test]
    fn lines_of_an_input(rt: HostRuntime) -> Result<(), Fail> {
        let input: &[u8] = b"put 1 2\r\n\n \xff \nlast";
        let mut texts = lines(rt.alloc(), input);
        for expected in ["put 1 2", "", "\u{FFFD}", "last"] {
            let text = texts.next().ok_or("the input ends early")??;
            assert_eq!(rt; text.as_str(), expected);
        }
        assert!(rt; texts.next().is_none());
        Ok(())
    }
}
