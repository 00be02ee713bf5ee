// Why a call is refused.
#![tactic(auto)]

ghost use Rattle.std.specs.Prelude.{◌≡◌};
ghost use Rattle.refusal.specs.Number.{number_of};

// Document 01's causes with their numbers, in the order of its table, then document 02's.
#[derive(Clone, Copy, PartialEq, Eq)]
pub enum Refusal {
    BadMagic = 1,
    SectionCut = 2,
    NotDiphone = 3,
    MissingSection = 4,
    BadHeader = 5,
    BadTables = 6,
    BadIndex = 7,
    BadSheet = 8,
    NotFinite = 9,
    BadSlope = 10,
    PastLimit = 11,
    TooManyMarks = 12,
    ShortBuffer = 13,
    ShortSlice = 14,
    BadState = 15,
    MissingPair = 16,
    LongText = 17,
}

impl From<Refusal> for u32 {
    // The number of a cause.
    fn from(cause: Refusal) -> u32
        ensures { result ≡ number_of cause }
    {
        cause as u32
    }
}
