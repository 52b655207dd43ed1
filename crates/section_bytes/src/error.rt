// The refusals. specs/Error.antt gives each its number and values.
ghost use Rattle.std.specs.Prelude.{◌≡◌, slice_index};
ghost use Rattle.section_bytes.specs.Error.{number as number_of, values as values_of};

#[derive(Clone, Copy)]
pub enum Error {
    UnexpectedEof,
    BadUnsignedLeb128,
    UnknownRangeListsEntry(u64),
    UnknownLocListsEntry(u64),
    UnknownVersion(u64),
    UnsupportedAddressSize(u64),
    UnsupportedSegmentSize(u64),
    UnknownReservedLength(u64),
    UnsupportedOffset,
    TooManyRanges,
    NoSpace,
    BadSheet,
    NoSuchMark,
    BadSpan,
    PaddedNumber,
    Tombstone,
    BackwardRange,
    AddressTooLarge,
    BadKindTable,
    TooManyAddresses,
    DescendingAddresses,
}

impl Error {
    // The number of the refusal.
    pub fn number(self) -> u64
        ensures { result ≡ number_of self }
    {
        match self {
            Error::UnexpectedEof => 1,
            Error::BadUnsignedLeb128 => 2,
            Error::UnknownRangeListsEntry(_) => 3,
            Error::UnknownLocListsEntry(_) => 4,
            Error::UnknownVersion(_) => 5,
            Error::UnsupportedAddressSize(_) => 6,
            Error::UnsupportedSegmentSize(_) => 7,
            Error::UnknownReservedLength(_) => 8,
            Error::UnsupportedOffset => 9,
            Error::TooManyRanges => 10,
            Error::NoSpace => 11,
            Error::BadSheet => 12,
            Error::NoSuchMark => 13,
            Error::BadSpan => 14,
            Error::PaddedNumber => 15,
            Error::Tombstone => 16,
            Error::BackwardRange => 17,
            Error::AddressTooLarge => 18,
            Error::BadKindTable => 19,
            Error::TooManyAddresses => 20,
            Error::DescendingAddresses => 21,
        }
    }

    // The value that goes with it; 0 where none does.
    pub fn value(self) -> u64
        ensures { result ≡ slice_index (values_of self) 0 }
    {
        match self {
            Error::UnknownRangeListsEntry(code) => code,
            Error::UnknownLocListsEntry(code) => code,
            Error::UnknownVersion(version) => version,
            Error::UnsupportedAddressSize(size) => size,
            Error::UnsupportedSegmentSize(size) => size,
            Error::UnknownReservedLength(length) => length,
            _ => 0,
        }
    }
}
