use crate::{rising, write_lent};
use std::alloc::{AllocError, Global};
use std::process::Abort;
use std::test::Fail;
use store::{Lent, PageStore, RowStore, StoreFault, TwinBoards, Watched, clear_page, copy_page};

// what stands in a buffer before any write
const OLD: u8 = 0xAA;

// the even and the odd bytes of the page 00 01 02 .. 3F
const EVEN: &[u8; 32] =
    b"\x00\x02\x04\x06\x08\x0A\x0C\x0E\x10\x12\x14\x16\x18\x1A\x1C\x1E\x20\x22\x24\x26\x28\x2A\x2C\x2E\x30\x32\x34\x36\x38\x3A\x3C\x3E";

const ODD: &[u8; 32] =
    b"\x01\x03\x05\x07\x09\x0B\x0D\x0F\x11\x13\x15\x17\x19\x1B\x1D\x1F\x21\x23\x25\x27\x29\x2B\x2D\x2F\x31\x33\x35\x37\x39\x3B\x3D\x3F";

fn row(heap: Global, len: usize) -> Result<RowStore, AllocError> {
    Ok(RowStore::new(vec![in heap; OLD; len]?))
}

fn boards(heap: Global, even: usize, odd: usize) -> Result<TwinBoards, AllocError> {
    Ok(TwinBoards::new(vec![in heap; OLD; even]?, vec![in heap; OLD; odd]?))
}

// Old bytes, then `part`, then old bytes again.
fn laid(heap: Global, before: usize, part: &[u8], after: usize) -> Result<Vec<u8>, AllocError> {
    let mut bytes = vec![in heap; OLD; before]?;
    bytes.extend_from_slice(part)?;
    let rest = vec![in heap; OLD; after]?;
    bytes.extend_from_slice(&rest)?;
    Ok(bytes)
}

// The page reads as `expected`.
fn reads<S: PageStore>(
    rt: &impl Abort,
    store: &mut S,
    page: usize,
    expected: &[u8; 64],
) -> Result<(), Fail> {
    let mut buf = [0; 64];
    store.read(page, &mut buf)?;
    assert!(rt; buf == *expected);
    Ok(())
}

// A page that is not there is refused, whatever the buffer, and a refused read keeps its buffer.
fn misses<S: PageStore>(rt: &impl Abort, store: &mut S, page: usize) {
    let mut buf = [7; 64];
    assert_eq!(rt; store.read(page, &mut buf), Err(StoreFault::NoPage(page)));
    assert_eq!(rt; store.read(page, &mut []), Err(StoreFault::NoPage(page)));
    assert_eq!(rt; store.write(page, &buf), Err(StoreFault::NoPage(page)));
    assert_eq!(rt; store.write(page, &[7; 63]), Err(StoreFault::NoPage(page)));
    assert_eq!(rt; copy_page(store, page, 0), Err(StoreFault::NoPage(page)));
    assert_eq!(rt; clear_page(store, page), Err(StoreFault::NoPage(page)));
    assert!(rt; buf == [7; 64]);
}

// A page that is there is refused with a buffer of 63 or 65 bytes, and a refused read keeps its buffer.
fn bars<S: PageStore>(rt: &impl Abort, store: &mut S, page: usize) {
    let mut short = [7; 63];
    let mut long = [7; 65];
    assert_eq!(rt;
        store.read(page, &mut short),
        Err(StoreFault::BadBuffer(page))
    );
    assert_eq!(rt;
        store.read(page, &mut long),
        Err(StoreFault::BadBuffer(page))
    );
    assert_eq!(rt; store.write(page, &short), Err(StoreFault::BadBuffer(page)));
    assert_eq!(rt; store.write(page, &long), Err(StoreFault::BadBuffer(page)));
    assert!(rt; short == [7; 63] && long == [7; 65]);
}

// What a store of `count` pages refuses.
fn refuses<S: PageStore>(rt: &impl Abort, store: &mut S, count: usize) {
    assert_eq!(rt; store.count(), count);
    for page in 0..count {
        bars(rt, store, page);
    }
    for page in [count, count.saturating_add(1), usize::MAX] {
        misses(rt, store, page);
    }
}

// Writes, copies and clears pages of a store of 3 pages or more that holds old bytes.
fn works<S: PageStore>(rt: &impl Abort, store: &mut S) -> Result<(), Fail> {
    let page = rising();
    store.write(0, &page)?;
    reads(rt, store, 0, &page)?;
    reads(rt, store, 1, &[OLD; 64])?;
    copy_page(store, 0, 2)?;
    reads(rt, store, 2, &page)?;
    clear_page(store, 0)?;
    reads(rt, store, 0, &[0; 64])?;
    reads(rt, store, 1, &[OLD; 64])?;
    reads(rt, store, 2, &page)
}

#[test]
fn row_works(rt: HostRuntime) -> Result<(), Fail> {
    works(&rt, &mut row(rt.alloc(), 192)?)
}

#[test]
fn twin_works(rt: HostRuntime) -> Result<(), Fail> {
    works(&rt, &mut boards(rt.alloc(), 96, 96)?)
}

#[test]
fn row_keeps_what_is_left_over(rt: HostRuntime) -> Result<(), Fail> {
    let mut store = row(rt.alloc(), 200)?;
    refuses(&rt, &mut store, 3);
    store.write(1, &rising())?;
    reads(&rt, &mut store, 1, &rising())?;
    assert_eq!(rt; store.into_bytes(), laid(rt.alloc(), 64, &rising(), 72)?);
    Ok(())
}

#[test]
fn row_last_page(rt: HostRuntime) -> Result<(), Fail> {
    let mut store = row(rt.alloc(), 191)?;
    refuses(&rt, &mut store, 2);
    store.write(1, &rising())?;
    assert_eq!(rt; store.into_bytes(), laid(rt.alloc(), 64, &rising(), 63)?);
    Ok(())
}

#[test]
fn boards_hold_even_and_odd_bytes(rt: HostRuntime) -> Result<(), Fail> {
    let mut store = boards(rt.alloc(), 64, 64)?;
    store.write(0, &rising())?;
    let (even, odd) = store.into_boards();
    assert_eq!(rt; even, laid(rt.alloc(), 0, EVEN, 32)?);
    assert_eq!(rt; odd, laid(rt.alloc(), 0, ODD, 32)?);
    Ok(())
}

// Four halves on one board, three and 4 bytes more on the other: three pages, and the fourth half is never written.
#[test]
fn boards_of_different_length(rt: HostRuntime) -> Result<(), Fail> {
    let mut store = boards(rt.alloc(), 128, 100)?;
    refuses(&rt, &mut store, 3);
    store.write(2, &rising())?;
    reads(&rt, &mut store, 2, &rising())?;
    let (even, odd) = store.into_boards();
    assert_eq!(rt; even, laid(rt.alloc(), 64, EVEN, 32)?);
    assert_eq!(rt; odd, laid(rt.alloc(), 64, ODD, 4)?);
    Ok(())
}

#[test]
fn no_pages(rt: HostRuntime) -> Result<(), Fail> {
    for len in [0usize, 1, 63] {
        let mut store = row(rt.alloc(), len)?;
        refuses(&rt, &mut store, 0);
        assert_eq!(rt; store.into_bytes(), laid(rt.alloc(), len, &[], 0)?);
    }
    for (one, two) in [(0usize, 0usize), (0, 64), (31, 64), (96, 31)] {
        let mut store = boards(rt.alloc(), one, two)?;
        refuses(&rt, &mut store, 0);
        let (even, odd) = store.into_boards();
        assert_eq!(rt; even, laid(rt.alloc(), one, &[], 0)?);
        assert_eq!(rt; odd, laid(rt.alloc(), two, &[], 0)?);
    }
    Ok(())
}

#[test]
fn every_call_is_counted_once(rt: HostRuntime) -> Result<(), Fail> {
    let mut store = Watched::new(row(rt.alloc(), 128)?);
    assert!(rt; store.reads() == 0 && store.writes() == 0);
    let mut buf = [0; 64];
    store.read(1, &mut buf)?;
    assert!(rt; store.reads() == 1 && store.writes() == 0);
    assert_eq!(rt; store.read(2, &mut buf), Err(StoreFault::NoPage(2)));
    assert!(rt; store.reads() == 2 && store.writes() == 0);
    store.write(0, &buf)?;
    assert_eq!(rt; store.write(0, &[0; 63]), Err(StoreFault::BadBuffer(0)));
    assert_eq!(rt; store.write(9, &buf), Err(StoreFault::NoPage(9)));
    assert!(rt; store.reads() == 2 && store.writes() == 3);
    assert_eq!(rt; store.count(), 2);
    copy_page(&mut store, 0, 1)?;
    clear_page(&mut store, 0)?;
    assert!(rt; store.reads() == 3 && store.writes() == 5);
    let bytes = store.into_inner().into_bytes();
    assert_eq!(rt;
        bytes,
        laid(rt.alloc(), 0, &[0; 64], 64)?,
        "page 1 is a copy of page 0"
    );
    Ok(())
}

#[test]
fn a_loan_is_a_store(rt: HostRuntime) -> Result<(), Fail> {
    let mut store = boards(rt.alloc(), 96, 96)?;
    works(&rt, &mut Lent::new(&mut store))?;
    write_lent(&mut store, 1, &rising())?;
    reads(&rt, &mut store, 1, &rising())?;
    reads(&rt, &mut store, 2, &rising())?;
    refuses(&rt, &mut Watched::new(Lent::new(&mut store)), 3);
    Ok(())
}

#[test]
fn faults_in_words(rt: HostRuntime) -> Result<(), Fail> {
    let fault = StoreFault::NoPage(12);
    let said = format!(in rt.alloc(); "{fault}")?;
    assert_eq!(rt; said.as_str(), "there is no page 12");
    let fault = StoreFault::BadBuffer(0);
    let said = format!(in rt.alloc(); "{fault}")?;
    assert_eq!(rt; said.as_str(), "the buffer for page 0 is not 64 bytes long");
    Ok(())
}
