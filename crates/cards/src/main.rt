//! Makes a card of each page store, works on its pages in the same steps, and shows what its memory then holds.
#![tactic(auto)]

use std::io;
use store::{PageStore, RowStore, StoreFault, TwinBoards, Watched, clear_page, copy_page};
use store_tests::rising;

// what a new memory holds
const OLD: u8 = 0xAA;

// how many bytes a line of hexadecimal has
const LINE: usize = 32;

fn main(rt: HostRuntime) -> io::Result<()> {
    let heap = rt.alloc();
    println!(rt; "A card in one row of 200 bytes, each of them AA")?;
    let mut card = Watched::new(RowStore::new(vec![in heap; OLD; 200]?));
    work(&rt, &mut card)?;
    told(&rt, &card)?;
    show(&rt, "the row", &card.into_inner().into_bytes())?;

    println!(rt; "A card on two boards of 128 and 100 bytes, each of them AA")?;
    let boards = TwinBoards::new(vec![in heap; OLD; 128]?, vec![in heap; OLD; 100]?);
    let mut card = Watched::new(boards);
    work(&rt, &mut card)?;
    told(&rt, &card)?;
    let (even, odd) = card.into_inner().into_boards();
    show(&rt, "the board of the even bytes", &even)?;
    show(&rt, "the board of the odd bytes", &odd)
}

// The same steps on any store, some of them refused.
fn work<S: PageStore>(rt: &impl Print, store: &mut S) -> io::Result<()> {
    let count = store.count();
    println!(rt; "  it has {count} pages")?;
    let rising = rising();
    tell(rt, "write 00 01 .. 3F to page 0", store.write(0, &rising))?;
    tell(
        rt,
        "write FF to every byte of page 1",
        store.write(1, &[0xFF; 64]),
    )?;
    tell(rt, "copy page 1 to page 2", copy_page(store, 1, 2))?;
    tell(rt, "clear page 1", clear_page(store, 1))?;
    tell(rt, "write 00 01 .. 3F to page 3", store.write(3, &rising))?;
    tell(rt, "copy page 0 to page 3", copy_page(store, 0, 3))?;
    tell(rt, "copy page 4 to page 3", copy_page(store, 4, 3))?;
    tell(rt, "clear page 3", clear_page(store, 3))?;
    tell(rt, "write 63 bytes to page 0", store.write(0, &[0xEE; 63]))?;
    tell(rt, "write 65 bytes to page 0", store.write(0, &[0xEE; 65]))?;
    tell(
        rt,
        "read page 1 into 63 bytes",
        store.read(1, &mut [0xEE; 63]),
    )?;
    let mut page = [0xEE; 64];
    tell(rt, "read page 0", store.read(0, &mut page))?;
    show(rt, "what was read", &page)
}

// A line on one step: what was asked for, and the answer.
fn tell(rt: &impl Print, step: &str, answer: Result<(), StoreFault>) -> io::Result<()> {
    match answer {
        Ok(()) => println!(rt; "  {step}: done"),
        Err(fault) => println!(rt; "  {step}: refused, {fault}"),
    }
}

// How many calls came to a store.
fn told<S: PageStore>(rt: &impl Print, store: &Watched<S>) -> io::Result<()> {
    let reads = store.reads();
    let writes = store.writes();
    println!(rt; "  the store was asked for {reads} reads and {writes} writes")
}

// The bytes in hexadecimal.
fn show(rt: &impl Print, what: &str, bytes: &[u8]) -> io::Result<()> {
    println!(rt; "  {what}:")?;
    for line in bytes.chunks(LINE) {
        print!(rt; "   ")?;
        for byte in line {
            print!(rt; " {byte:02X}")?;
        }
        println!(rt; "")?;
    }
    Ok(())
}
