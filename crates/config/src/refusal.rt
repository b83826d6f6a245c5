// The refusals of the store, by the names of the original where it has them.
ghost use Rattle.std.specs.Prelude.{◌≡◌};
ghost use Rattle.config.specs.Refusals.{numbers_of};
ghost use Rattle.config.specs.Refusals.{these as of};

use crate::StablePages;

#[derive(Clone, Copy, Debug, PartialEq, Eq)]
pub enum Refusal {
    ForeignStableMemoryImage,
    UnsupportedLayoutVersion(u64),
    MetaChecksumMismatch,
    ImageOutOfMemory,
    ImportAlreadyStarted,
    ImportNotStarted,
    UpdateInProgress,
    UpdateBegunTwice,
    OffsetOverflow,
    ImportOutOfOrder,
    ImportOutOfBounds,
    ImportIncomplete,
    ChecksumMismatch {
        expected: u64,
        actual: u64,
    },
    ChecksumRefreshChunkEmpty,
    BudgetExceeded,
    ZeroExtentLimitExceeded,
    GrowFailed {
        current: StablePages,
        required: StablePages,
    },
    FramesFull,
    RecordFull,
    BufferTooShort,
}

// What callers see of a refusal: its number, and its values, 0 where it has none.
#[derive(Clone, Copy, Debug, PartialEq, Eq)]
pub struct Numbers {
    pub number: u64,
    pub first: u64,
    pub second: u64,
}

fn these(number: u64, first: u64, second: u64) -> Numbers
    ensures { result ≡ of number first second }
{
    Numbers {
        number,
        first,
        second,
    }
}

impl From<Refusal> for Numbers {
    ghost from_gives = { λ refusal numbers. numbers ≡ numbers_of refusal };

    fn from(refusal: Refusal) -> Numbers {
        match refusal {
            Refusal::ForeignStableMemoryImage => these(1, 0, 0),
            Refusal::UnsupportedLayoutVersion(version) => these(2, version, 0),
            Refusal::MetaChecksumMismatch => these(3, 0, 0),
            Refusal::ImageOutOfMemory => these(4, 0, 0),
            Refusal::ImportAlreadyStarted => these(10, 0, 0),
            Refusal::ImportNotStarted => these(11, 0, 0),
            Refusal::UpdateInProgress => these(12, 0, 0),
            Refusal::UpdateBegunTwice => these(13, 0, 0),
            Refusal::OffsetOverflow => these(20, 0, 0),
            Refusal::ImportOutOfOrder => these(21, 0, 0),
            Refusal::ImportOutOfBounds => these(22, 0, 0),
            Refusal::ImportIncomplete => these(23, 0, 0),
            Refusal::ChecksumMismatch { expected, actual } => these(24, expected, actual),
            Refusal::ChecksumRefreshChunkEmpty => these(25, 0, 0),
            Refusal::BudgetExceeded => these(30, 0, 0),
            Refusal::ZeroExtentLimitExceeded => these(31, 0, 0),
            Refusal::GrowFailed { current, required } => these(32, current.0, required.0),
            Refusal::FramesFull => these(33, 0, 0),
            Refusal::RecordFull => these(34, 0, 0),
            Refusal::BufferTooShort => these(35, 0, 0),
        }
    }
}
