// The intake check over recovered pages: the first visible order with a request mark, and the least pair of visible orders with the same one.
#![tactic(auto)]

ghost use Rattle.std.specs.Prelude.{◌≡◌};
ghost use Rattle.refusals.specs.Verdict.{by_number};
ghost use Rattle.intake.specs.Orders.{mark_of, order_found, orders_repeated};

use endian::PageNumber;
use refusals::{Refusal, Refused};

mod orders;
mod pairs;
mod search;
mod sort;

// The bytes of the shortest payload that is an order: a request mark of 16, a part number and a quantity.
pub const ORDER_BYTES: usize = 24;

// How many places a block has.
const BLOCK_PLACES: usize = 114688;

// An order: where its row stands, and what it asks for.
#[derive(Clone, Copy)]
pub struct Order {
    pub page: PageNumber,
    pub slot: usize,
    pub part: u32,
    pub quantity: u32,
}

// What a search for a mark answers: the first such order, and how many visible payloads are too short for one.
#[derive(Clone, Copy)]
pub struct FoundOrder {
    pub order: Option<Order>,
    pub short: usize,
}

// Two orders with the same mark, the later one behind the earlier.
#[derive(Clone, Copy)]
pub struct RepeatedOrders {
    pub first: Order,
    pub second: Order,
}

// The first visible order with that mark, in the order of the listing; and how many visible payloads have under 24 bytes. Refuses as `page::verify` does.
pub fn find(magic: u64, pages: &[u8], mark: &[u8; 16]) -> Result<FoundOrder, Refused>
    ensures { by_number result ≡ order_found magic pages.now (mark_of mark.now) }
{
    if page::inner::size_wrong(pages) {
        return Err(Refusal::PageArea.at(0));
    }
    let low = endian::u64_at(mark, 0);
    let high = endian::u64_at(mark, 8);
    let t = crc32c::inner::tables();
    search::find(&t, magic, pages, low, high)
}

// The least pair of visible orders with the same request mark, by the earlier row, then the later. Refuses as `page::verify` does.
pub fn repeated(magic: u64, pages: &[u8]) -> Result<Option<RepeatedOrders>, Refused>
    ensures { by_number result ≡ orders_repeated magic pages.now }
{
    // made before any test: docs/DECISIONS.md says why
    let mut block = [0u64; BLOCK_PLACES];
    page::verify(magic, pages)?;
    Ok(pairs::repeated(pages, &mut block))
}
