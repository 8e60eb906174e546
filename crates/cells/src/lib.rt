// What one walk measures of each page, and cells of touched slots for groups of consecutive pages.
#![tactic(auto)]

pub mod inner;

// Scratch space of a recovery, page by page of at most 4,096: where the cells of each page start and where the list of its changes does, the place of the last change
// on it, and where in its list the committed ones end; and the space of all lists, or of the cells of a group of pages.
#[derive(Drop)]
pub struct Scratch {
    pub starts: [u32; 4097],
    pub lasts: [u32; 4096],
    pub lists: [u32; 4097],
    pub fronts: [u32; 4096],
    pub space: [u8; 655360],
}
