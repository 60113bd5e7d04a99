//! Tests of the page stores. The bytes expected follow from the rule of each test and are never taken from a store.
#![tactic(auto)]

ghost use Rattle.std.specs.Prelude.{◌≡◌, ◌<◌};
ghost use Rattle.std.specs.List.{range_with_len};
ghost use Rattle.store.specs.Calls.{Written};

use std::array;
use store::{Lent, PageStore, StoreFault};

#[cfg(test)]
mod tests;

/// Writes a page through a loan. What the loan wrote is in the store once the loan has ended.
pub fn write_lent<S: PageStore>(store: &mut S, page: usize, buf: &[u8]) -> Result<(), StoreFault>
    ensures gives { Written (S.PageStore.pages store.old) (S.PageStore.pages store.new) page buf.now result }
{
    let mut lent = Lent::new(store);
    lent.write(page, buf)
}

/// The page 00 01 02 .. 3F.
pub fn rising() -> [u8; 64]
    ensures { result ≡ range_with_len 0 64 }
{
    array::from_fn(
        |place|
            requires { place < 64 }
            ensures { result ≡ place }
        // a cast, as the place is below 64
        {
            place as u8
        },
    )
}
