// Where the tuple that a slot is to hold stands: in the log or in its page.
#![tactic(auto)]

ghost use Rattle.fates.specs.Fate.{Ordered};
ghost use Rattle.images.specs.Page.{PageCells};

pub mod inner;

// Page i before it is mended, by an accepted log: one more than its highest touched slot, and of each slot below it what is decided.
// That the page is good stays a clause: a good slot is empty or filled, and that this holds in one way only would need a tactic in specs/.
#[derive(Clone, Copy)]
pub struct Slots<'a> {
    pub log: &'a [u8],
    pub page: &'a [u8],
    pub i: usize,
    pub top: usize,
    pub cells: &'a [u32; 4080],
    pub ghost ordered: { Ordered log.now },
    pub ghost decided: { PageCells log.now i top cells.now },
}
