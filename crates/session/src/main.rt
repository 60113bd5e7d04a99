// A session at a draft: reads one command a line from standard input and prints each step as it is taken, the command behind `> ` and then its reply.
#![tactic(auto)]

use draft::Draft;
use draft::calls::{Call, Reply};
use kinds::bar::BarPoint;
use kinds::kind::PointKind;
use kinds::lay::LayPoint;
use query::coordinates::Coordinates;
use refusal::Refusal;
use std::alloc::Global;
use std::io::BufReader;
use std::{fmt, io};
use store::{PageStore, RowStore, Watched};
use words::lines;

mod said;
mod spoken;

use said::{Trouble, Unsaid};
use spoken::{Kind, begun, call_of};

// The card of a session.
type Card = Watched<RowStore>;

// The draft that was begun last. Which kind it is of is known only when the input is read, so that it is no parameter.
#[derive(Drop)]
enum Open {
    Lay(Draft<LayPoint, Card>),
    Bar(Draft<BarPoint, Card>),
}

// How many pages were read and written.
#[derive(Clone, Copy)]
struct Traffic {
    read: u64,
    wrote: u64,
}

impl Traffic {
    // All that came to a card.
    fn of(card: &Card) -> Traffic {
        Traffic {
            read: card.reads(),
            wrote: card.writes(),
        }
    }

    // What came after `before`.
    fn since(self, before: Traffic) -> Traffic {
        Traffic {
            read: self.read.saturating_sub(before.read),
            wrote: self.wrote.saturating_sub(before.wrote),
        }
    }
}

impl fmt::Display for Traffic {
    fn fmt<W: fmt::Write>(&self, f: &mut fmt::Formatter<W>) -> fmt::Result {
        let Traffic { read, wrote } = *self;
        write!(f, "read {read}, wrote {wrote}")
    }
}

// A blank card of so many pages.
fn blank(heap: Global, pages: usize) -> io::Result<Card> {
    Ok(Watched::new(RowStore::new(vec![in heap; 0; pages.saturating_mul(64)]?)))
}

// Begins a draft of a kind on a fresh card, to be opened.
fn begin<K: PointKind, F: FnOnce(Draft<K, Card>) -> Open>(
    rt: &HostRuntime,
    open: &mut Option<Open>,
    pages: usize,
    opened: F,
) -> io::Result<()>
    requires { F.IsAlwaysCallable opened }
{
    match Draft::begin(blank(rt.alloc(), pages)?) {
        Ok(draft) => {
            *open = Some(opened(draft));
            println!(rt; "ok")
        }
        Err((why, _card)) => println!(rt; "{why}"),
    }
}

// Prints why a command cannot be read.
fn unreadable(rt: &HostRuntime, why: Trouble) -> io::Result<()> {
    println!(rt; "unreadable: {why}")
}

// An answer that can be printed, or why there is none.
fn show<T: fmt::Display + Drop>(rt: &HostRuntime, answer: Result<T, Refusal>) -> io::Result<()> {
    match answer {
        Ok(answer) => println!(rt; "{answer}"),
        Err(why) => println!(rt; "{why}"),
    }
}

// The answer to a correction: how many pages it read and wrote, or why it was refused.
fn show_correction(
    rt: &HostRuntime,
    answer: Result<(), Refusal>,
    traffic: Traffic,
) -> io::Result<()> {
    match answer {
        Ok(()) => println!(rt; "ok: {traffic}"),
        Err(why) => println!(rt; "{why}"),
    }
}

// The points that were listed, a line each.
fn show_list<K: fmt::Display>(
    rt: &HostRuntime,
    answer: Result<(usize, usize), Refusal>,
    buffer: &[K],
) -> io::Result<()> {
    match answer {
        Ok((written, all)) => {
            println!(rt; "{written} of {all}")?;
            for point in buffer.iter().take(written) {
                println!(rt; "  {point}")?;
            }
            Ok(())
        }
        Err(why) => println!(rt; "{why}"),
    }
}

// A reply, in words.
fn show_reply<K: PointKind + fmt::Display>(
    rt: &HostRuntime,
    reply: Reply<K>,
    traffic: Traffic,
) -> io::Result<()> {
    match reply {
        Reply::Put(answer) => show_correction(rt, answer, traffic),
        Reply::Take(answer) => show_correction(rt, answer, traffic),
        Reply::Ask(answer) => show(rt, answer.map(|live| if live { "yes" } else { "no" })),
        Reply::Pick(answer) => match answer.transpose() {
            Some(answer) => show(rt, answer),
            None => println!(rt; "none"),
        },
        Reply::List(answer, buffer) => show_list(rt, answer, &buffer),
        Reply::Count(answer) => show(rt, answer),
        Reply::Tally(answer) => show(rt, answer),
        Reply::Outline(Ok(written), _) => println!(rt; "{written} bytes"),
        Reply::Outline(Err(why), _) => println!(rt; "{why}"),
    }
}

// Makes the call that the words say, and prints its reply.
fn make<K: Coordinates + Clone + fmt::Display>(
    rt: &HostRuntime,
    draft: &mut Draft<K, Card>,
    words: &[&str],
) -> io::Result<()> {
    let call = match call_of::<K>(rt.alloc(), words) {
        Ok(call) => call,
        Err(Unsaid::Refused(why)) => return println!(rt; "{why}"),
        Err(Unsaid::Unreadable(why)) => return unreadable(rt, why),
        Err(Unsaid::OutOfMemory(error)) => return Err(io::Error::from(error)),
    };
    let before = Traffic::of(draft.store());
    let reply = draft.call(call);
    show_reply(rt, reply, Traffic::of(draft.store()).since(before))
}

// What is wrong with a command where no draft was begun. `call_of` names the commands too, but reads what follows as points of a kind, and here there is none.
fn without_draft(words: &[&str]) -> Trouble {
    match words {
        ["put" | "take" | "ask" | "pick" | "count" | "list", ..] => Trouble::NoDraft,
        ["tally"] | ["outline", _] => Trouble::NoDraft,
        _ => Trouble::Command,
    }
}

// One command, and its answer.
fn step(rt: &HostRuntime, open: &mut Option<Open>, text: &str) -> io::Result<()> {
    println!(rt; "> {text}")?;
    let words: Vec<&str> = text.split_whitespace().collect(rt.alloc())?;
    let words = words.as_slice();
    if let ["begin", ..] = words {
        return match begun(words) {
            Ok((Kind::Lay, pages)) => begin(rt, open, pages, Open::Lay),
            Ok((Kind::Bar, pages)) => begin(rt, open, pages, Open::Bar),
            Err(why) => unreadable(rt, why),
        };
    }
    match open {
        None => unreadable(rt, without_draft(words)),
        Some(Open::Lay(draft)) => make(rt, draft, words),
        Some(Open::Bar(draft)) => make(rt, draft, words),
    }
}

fn main(rt: HostRuntime) -> io::Result<()> {
    let heap = rt.alloc();
    let mut open = None;
    for line in lines(heap, BufReader::new(heap, rt.stdin())?) {
        let line = line?;
        let text = line.as_str();
        if !text.is_empty() && !text.starts_with('#') {
            step(&rt, &mut open, text)?;
        }
    }
    Ok(())
}
