// The codes of the kinds of entries, by DWARF's names.

// Of range lists (DWARF 5, 7.25).
pub const DW_RLE_end_of_list: u64 = 0;

pub const DW_RLE_base_addressx: u64 = 1;

pub const DW_RLE_startx_endx: u64 = 2;

pub const DW_RLE_startx_length: u64 = 3;

pub const DW_RLE_offset_pair: u64 = 4;

pub const DW_RLE_base_address: u64 = 5;

pub const DW_RLE_start_end: u64 = 6;

pub const DW_RLE_start_length: u64 = 7;

// Of location lists (DWARF 5, 7.7.3).
pub const DW_LLE_end_of_list: u64 = 0;

pub const DW_LLE_base_addressx: u64 = 1;

pub const DW_LLE_startx_endx: u64 = 2;

pub const DW_LLE_startx_length: u64 = 3;

pub const DW_LLE_offset_pair: u64 = 4;

pub const DW_LLE_default_location: u64 = 5;

pub const DW_LLE_base_address: u64 = 6;

pub const DW_LLE_start_end: u64 = 7;

pub const DW_LLE_start_length: u64 = 8;

// A bare pair, which has no code in the bytes.
pub const ADDRESS_OR_OFFSET_PAIR: u64 = 0;

// What a table of kind numbers has at a code without a kind.
pub const NO_KIND: u64 = 255;
