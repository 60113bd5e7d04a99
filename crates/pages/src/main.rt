// Every change of one byte of every sample page is read again. It is refused, or it is another page, which is written as exactly the changed bytes.
#![tactic(auto)]

use kinds::bar::BarPoint;
use kinds::kind::PointKind;
use kinds::lay::LayPoint;
use page::data_page::DataView;
use page::encode::{data_page, directory_page, free_page, head_page};
use page::fault::PageFault;
use page::free_page::next_free;
use page::head_page::read_head;
use page::tree_page::{Node, read_node};
use page_tests::samples::*;
use std::{fmt, io};

// Why a changed page is not another page.
#[derive(Clone, Copy)]
enum Unread {
    OtherKind,
    WrongField,
    // it is read, and what was read is not written as its bytes
    Misread,
}

impl From<PageFault> for Unread {
    fn from(fault: PageFault) -> Unread {
        match fault {
            PageFault::Field(_) => Unread::WrongField,
            PageFault::Kind(_) => Unread::OtherKind,
            PageFault::Store(_) => Unread::Misread,
        }
    }
}

// How often each came.
#[derive(Clone, Copy, Default)]
struct Tally {
    pages: u32,
    kinds: u32,
    fields: u32,
    misread: u32,
}

impl Tally {
    // Counts what became of one more changed page.
    fn count(&mut self, read: Result<(), Unread>) {
        let counter = match read {
            Ok(()) => &mut self.pages,
            Err(Unread::OtherKind) => &mut self.kinds,
            Err(Unread::WrongField) => &mut self.fields,
            Err(Unread::Misread) => &mut self.misread,
        };
        *counter = counter.wrapping_add(1);
    }
}

impl fmt::Display for Tally {
    fn fmt<W: fmt::Write>(&self, f: &mut fmt::Formatter<W>) -> fmt::Result {
        let Tally {
            pages,
            kinds,
            fields,
            misread,
        } = *self;
        write!(
            f,
            "{pages} other pages, {kinds} of another kind, {fields} with a wrong field, {misread} misread"
        )
    }
}

// A page that was read is written again as the bytes that it was read from.
fn compared(written: &[u8; 64], bytes: &[u8; 64]) -> Result<(), Unread> {
    if *written == *bytes {
        Ok(())
    } else {
        Err(Unread::Misread)
    }
}

fn free_again<K: PointKind>(bytes: &[u8; 64]) -> Result<(), Unread> {
    let next = next_free::<K>(1, bytes)?;
    compared(&free_page::<K>(next), bytes)
}

fn head_again<K: PointKind>(bytes: &[u8; 64]) -> Result<(), Unread> {
    let head = read_head::<K>(0, bytes)?;
    compared(&head_page(&head), bytes)
}

// The room for points is lent: a list for each change would make want of memory one more outcome.
fn data_again<K: PointKind>(bytes: &[u8; 64], room: &mut [K]) -> Result<(), Unread> {
    let view = DataView::<K>::new(1, bytes)?;
    let count = view.count();
    if count > room.len() || count > K::CAPACITY {
        return Err(Unread::Misread);
    }
    let points = &mut room[..count];
    for (place, point) in points.iter_mut().enumerate() {
        *point = view.point(place).ok_or(Unread::Misread)?;
    }
    compared(&data_page(points), bytes)
}

fn tree_again<K: PointKind>(bytes: &[u8; 64], room: &mut [K]) -> Result<(), Unread> {
    let Node::Directory(fork) = read_node::<K>(1, bytes)? else {
        return data_again(bytes, room);
    };
    let depth = u8::try_from(fork.depth).map_err(|_| Unread::Misread)?;
    compared(&directory_page(depth, &fork.low, &fork.high), bytes)
}

// All 255 changes of each of the 64 bytes, each read again.
fn changes<F: FnMut(&[u8; 64]) -> Result<(), Unread>>(page: &[u8; 64], mut again: F) -> Tally
    requires { F.IsAlwaysCallable again }
{
    let mut tally = Tally::default();
    for (at, old) in page.iter().enumerate() {
        for byte in (0..=u8::MAX).filter(|byte| byte != old) {
            let mut changed = *page;
            changed[at] = byte;
            tally.count(again(&changed));
        }
    }
    tally
}

// The sample pages of a kind, besides the free one.
#[derive(Clone, Copy)]
struct Samples {
    data: &'static [u8; 64],
    full: &'static [u8; 64],
    directory: &'static [u8; 64],
    empty_head: &'static [u8; 64],
    head: &'static [u8; 64],
}

// Changes each page of a kind. The points of a page are read into the room.
fn show<K: PointKind>(
    rt: &HostRuntime,
    kind: &str,
    samples: Samples,
    room: &mut [K],
) -> io::Result<()> {
    let free = changes(FREE, |bytes| free_again::<K>(bytes));
    println!(rt; "{kind} free: {free}")?;
    let trees = [
        ("data", samples.data),
        ("full data", samples.full),
        ("directory", samples.directory),
    ];
    for (name, page) in trees {
        let tally = changes(page, |bytes| tree_again(bytes, room));
        println!(rt; "{kind} {name}: {tally}")?;
    }
    let heads = [("empty head", samples.empty_head), ("head", samples.head)];
    for (name, page) in heads {
        let tally = changes(page, |bytes| head_again::<K>(bytes));
        println!(rt; "{kind} {name}: {tally}")?;
    }
    Ok(())
}

fn main(rt: HostRuntime) -> io::Result<()> {
    let lay = Samples {
        data: LAY_DATA,
        full: LAY_FULL,
        directory: LAY_DIRECTORY,
        empty_head: LAY_EMPTY_HEAD,
        head: LAY_HEAD,
    };
    show(&rt, "lay", lay, &mut [LayPoint { course: 0, shog: 0 }; 15])?;
    let bar = Samples {
        data: BAR_DATA,
        full: BAR_FULL,
        directory: BAR_DIRECTORY,
        empty_head: BAR_EMPTY_HEAD,
        head: BAR_HEAD,
    };
    let origin = BarPoint {
        course: 0,
        bar: 0,
        shog: 0,
    };
    show(&rt, "bar", bar, &mut [origin; 10])
}
