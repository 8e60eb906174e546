// The refusals: one list, with their numbers as in specs/Refusal.antt and include/lumbraquay.h. docs/API.md says when each is given.
#![tactic(auto)]

ghost use Rattle.std.specs.Prelude.{◌≡◌};
ghost use Rattle.refusals.specs.Refusal.{number_of};

// Why something lent is refused.
#[derive(Clone, Copy, PartialEq, Eq)]
pub enum Refusal {
    PageArea,
    LogTooLong,
    LogHeader,
    EntryDamaged,
    EntryType,
    EntryShape,
    LsnOrder,
    TransactionOrder,
    Clash,
    NoRecord,
    PageMagicOrType,
    PageLsn,
    NoDataPage,
    PageOverfull,
    NoSuchPage,
    MapShort,
    PageId,
    PageChecksum,
    PageSlots,
    DoublewriteHeader,
    DoublewriteChecksum,
    DoublewriteMark,
    DoublewritePages,
    DoublewriteShort,
    SummaryArea,
    SummaryEndsEarly,
    SummarySpelling,
    SummaryEdition,
    SummaryRange,
    SummaryOrder,
    SummaryLeftOver,
    TableRowEndsEarly,
    TableRowForm,
    TableRowLayout,
    TableRowNoRoom,
    TableRowNewer,
    PageAreasDiffer,
}

impl Refusal {
    // Its number.
    pub fn number(self) -> u64
        ensures { result ≡ number_of self }
    {
        match self {
            Refusal::PageArea => 1,
            Refusal::LogTooLong => 2,
            Refusal::LogHeader => 3,
            Refusal::EntryDamaged => 4,
            Refusal::EntryType => 5,
            Refusal::EntryShape => 6,
            Refusal::LsnOrder => 7,
            Refusal::TransactionOrder => 8,
            Refusal::Clash => 9,
            Refusal::NoRecord => 10,
            Refusal::PageMagicOrType => 11,
            Refusal::PageLsn => 12,
            Refusal::NoDataPage => 13,
            Refusal::PageOverfull => 14,
            Refusal::NoSuchPage => 15,
            Refusal::MapShort => 16,
            Refusal::PageId => 17,
            Refusal::PageChecksum => 18,
            Refusal::PageSlots => 19,
            Refusal::DoublewriteHeader => 22,
            Refusal::DoublewriteChecksum => 23,
            Refusal::DoublewriteMark => 24,
            Refusal::DoublewritePages => 25,
            Refusal::DoublewriteShort => 26,
            Refusal::SummaryArea => 27,
            Refusal::SummaryEndsEarly => 28,
            Refusal::SummarySpelling => 29,
            Refusal::SummaryEdition => 30,
            Refusal::SummaryRange => 31,
            Refusal::SummaryOrder => 32,
            Refusal::SummaryLeftOver => 33,
            Refusal::TableRowEndsEarly => 34,
            Refusal::TableRowForm => 35,
            Refusal::TableRowLayout => 36,
            Refusal::TableRowNoRoom => 37,
            Refusal::TableRowNewer => 38,
            Refusal::PageAreasDiffer => 39,
        }
    }

    // This refusal, of what stands at a place.
    pub fn at(self, place: usize) -> Refused
        ensures why { result.refusal ≡ self }
        ensures place { result.place ≡ place }
    {
        Refused {
            refusal: self,
            place: place as u64,
        }
    }
}

// Why something lent is refused, and where: a place that docs/API.md tells for each refusal, or 0.
#[derive(Clone, Copy, PartialEq, Eq)]
pub struct Refused {
    pub refusal: Refusal,
    pub place: u64,
}

// A refusal's number and place; number 0 is none.
#[derive(Clone, Copy)]
pub struct Verdict {
    pub number: u64,
    pub place: u64,
}
