// A picture of a tree: a line for each page, set in under the page above it.
use kinds::kind::PointKind;
use kinds::lay::LayPoint;
use std::{fmt, io};

// How many bytes a record of an outline of lay points has.
pub const RECORD: usize = 14;

// What a page of the tree is. The library only writes its number into a record and shows no type for it, so a reader has its own.
#[derive(Clone, Copy, PartialEq, Eq)]
enum Sort {
    Data,
    Directory,
}

// A first byte that no record has.
#[derive(Clone, Copy)]
struct NoSort;

impl TryFrom<u8> for Sort {
    type Error = NoSort;

    // A record says it by its first byte: 1 for a data page, 2 for a directory page.
    fn try_from(byte: u8) -> Result<Sort, NoSort> {
        match byte {
            1 => Ok(Sort::Data),
            2 => Ok(Sort::Directory),
            _ => Err(NoSort),
        }
    }
}

impl fmt::Display for Sort {
    fn fmt<W: fmt::Write>(&self, f: &mut fmt::Formatter<W>) -> fmt::Result {
        f.write_str(match self {
            Sort::Data => "data",
            Sort::Directory => "directory",
        })
    }
}

// A page of the tree, as a record says it.
#[derive(Clone, Copy)]
struct Record {
    sort: Sort,
    points: u32,
    shared: u8,
    low: LayPoint,
    high: LayPoint,
}

impl Record {
    // What 14 bytes say, none where they are no record.
    fn read(bytes: &[u8]) -> Option<Record> {
        let (&[sort, a, b, c, d, shared], corners) = bytes.split_first_chunk::<6>()?;
        if corners.len() != 8 {
            return None;
        }
        let (low, high) = corners.split_at(4);
        Some(Record {
            sort: Sort::try_from(sort).ok()?,
            points: u32::from_le_bytes([a, b, c, d]),
            shared,
            low: <LayPoint as PointKind>::read(low)?,
            high: <LayPoint as PointKind>::read(high)?,
        })
    }
}

// Which halves of a directory page are still to come.
#[derive(Clone, Copy, PartialEq, Eq)]
enum ToCome {
    Both,
    High,
}

// One page is shown: it was one of the halves still to come. Directory pages both of whose halves were shown are done with.
fn shown(open: &mut Vec<ToCome>) {
    match open.iter().rposition(|halves| *halves == ToCome::Both) {
        Some(last) => {
            open.truncate(last + 1);
            open[last] = ToCome::High;
        }
        None => open.clear(),
    }
}

// Prints the tree that an outline says.
pub fn picture(rt: &HostRuntime, bytes: &[u8]) -> io::Result<()> {
    // for each directory page above, what is still to come
    let mut open = Vec::new(rt.alloc());
    for record in bytes.chunks_exact(RECORD) {
        let Some(page) = Record::read(record) else {
            return Ok(());
        };
        for _ in &open {
            print!(rt; "  ")?;
        }
        let Record {
            sort,
            points,
            shared,
            low,
            high,
        } = page;
        println!(rt; "{sort}: points {points}, shared bits {shared}, {low} to {high}")?;
        match sort {
            Sort::Directory => open.push(ToCome::Both)?,
            Sort::Data => shown(&mut open),
        }
    }
    Ok(())
}
