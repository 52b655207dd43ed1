// Formats, encodings, and the numbers that must not stand for one another.
ghost use Rattle.std.specs.Prelude.{◌≡◌};
ghost use Rattle.section_bytes.specs.Common.{initial_length_size, word_size, is_split};

// Whether offsets and lengths of a unit have 32 or 64 bits.
#[derive(Clone, Copy)]
pub enum Format {
    Dwarf64,
    Dwarf32,
}

impl Format {
    // The bytes of an initial length: 4, or 12 in 64-bit DWARF.
    pub fn initial_length_size(self) -> u8
        ensures { result ≡ initial_length_size self }
    {
        match self {
            Format::Dwarf32 => 4,
            Format::Dwarf64 => 12,
        }
    }

    // The bytes of an offset or a length: 4, or 8 in 64-bit DWARF.
    pub fn word_size(self) -> u8
        ensures { result ≡ word_size self }
    {
        match self {
            Format::Dwarf32 => 4,
            Format::Dwarf64 => 8,
        }
    }
}

// How a unit is written.
#[derive(Clone, Copy)]
pub struct Encoding {
    pub address_size: u8,
    pub format: Format,
    pub version: u16,
}

// Whether a file is an ordinary one or a split one.
#[derive(Clone, Copy)]
pub enum DwarfFileType {
    Main,
    Dwo,
}

impl DwarfFileType {
    // Whether the file is a split one.
    pub fn is_split(self) -> bool
        ensures { result ≡ is_split self }
    {
        match self {
            DwarfFileType::Main => false,
            DwarfFileType::Dwo => true,
        }
    }
}

// Where a table's header stands in `.debug_addr`.
#[derive(Clone, Copy)]
pub struct DebugAddrOffset(pub u64);

// Where a table's addresses begin in `.debug_addr`.
#[derive(Clone, Copy)]
pub struct DebugAddrBase(pub u64);

// Which address of a table.
#[derive(Clone, Copy)]
pub struct DebugAddrIndex(pub u64);

// Where a list begins in `.debug_ranges` or `.debug_rnglists`.
#[derive(Clone, Copy)]
pub struct RangeListsOffset(pub u64);

// Where an offset table begins in `.debug_rnglists`.
#[derive(Clone, Copy)]
pub struct DebugRngListsBase(pub u64);

// Which offset of that table.
#[derive(Clone, Copy)]
pub struct DebugRngListsIndex(pub u64);

// Where a list begins in `.debug_loc` or `.debug_loclists`.
#[derive(Clone, Copy)]
pub struct LocationListsOffset(pub u64);

// Where an offset table begins in `.debug_loclists`.
#[derive(Clone, Copy)]
pub struct DebugLocListsBase(pub u64);

// Which offset of that table.
#[derive(Clone, Copy)]
pub struct DebugLocListsIndex(pub u64);
