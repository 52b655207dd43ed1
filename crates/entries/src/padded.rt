// Whether some LEB128 number of a raw entry is padded: by how many bytes the entry took, since nothing else of it has a shorter form. So
// no byte is read twice, and a walk that doesn't ask pays nothing.
#![tactic(auto, using(section_bytes::proofs::WrittenLaws::few_bytes))]

ghost use Rattle.std.specs.Prelude.{◌≡◌, ◌+◌, ◌≤◌, leb, ltb};
ghost use Rattle.entries.specs.Told.{step_of};
ghost use Rattle.entries.specs.Listed.{entry_in, read_in};
ghost use Rattle.entries.specs.Lists.{are_locations, coding_in};
ghost use Rattle.entries.specs.Padded.{padded_in, noted, told_noted, noted_step_in};
ghost use Rattle.entries.specs.Shortest.{least_length, range_longer, location_longer, longer_in};

use super::{Expression, Lists, Noted, RawLocListEntry, RawRngListEntry};
use section_bytes::common::Encoding;
use section_bytes::endianity::RunTimeEndian;
use section_bytes::error::Error;
use section_bytes::leb128::unsigned_size;

// A range entry took more bytes than it had to.
fn range_longer(entry: RawRngListEntry, len: usize, encoding: Encoding) -> bool
    ensures { result ≡ range_longer encoding entry len }
{
    let size = encoding.address_size as usize;
    match entry {
        RawRngListEntry::AddressOrOffsetPair(_, _) => false,
        RawRngListEntry::BaseAddress(_) => false,
        RawRngListEntry::BaseAddressx(i) => 1 + unsigned_size(i.0) < len,
        RawRngListEntry::StartxEndx(i, j) => 1 + unsigned_size(i.0) + unsigned_size(j.0) < len,
        RawRngListEntry::StartxLength(i, n) => 1 + unsigned_size(i.0) + unsigned_size(n) < len,
        RawRngListEntry::OffsetPair(b, e) => 1 + unsigned_size(b) + unsigned_size(e) < len,
        RawRngListEntry::StartEnd(_, _) => false,
        RawRngListEntry::StartLength(_, n) => 1 + size + unsigned_size(n) < len,
    }
}

// The fewest bytes of a length: LEB128 from version 5 on, of a fixed size before.
fn length_size(n: u64, version: u16, fixed: usize) -> usize
    ensures { (result ≡ least_length (leb 5 version) fixed n) × (result ≤ 10 + fixed) }
{
    if 5 <= version {
        return unsigned_size(n);
    }
    fixed
}

// So many bytes and an expression behind them are fewer than an entry took.
fn with_expression(least: usize, x: Expression, version: u16, len: usize) -> bool
    requires { least ≤ 1024 }
    ensures { result ≡ ltb (least + (least_length (leb 5 version) 2 x.len + x.len)) len }
{
    if len < x.len {
        return false;
    }
    least + length_size(x.len as u64, version, 2) < len - x.len
}

// A location entry took more bytes than it had to.
fn location_longer(entry: RawLocListEntry, len: usize, encoding: Encoding) -> bool
    ensures { result ≡ location_longer encoding entry len }
{
    let size = encoding.address_size as usize;
    let version = encoding.version;
    match entry {
        RawLocListEntry::AddressOrOffsetPair(_, _, _) => false,
        RawLocListEntry::BaseAddress(_) => false,
        RawLocListEntry::BaseAddressx(i) => 1 + unsigned_size(i.0) < len,
        RawLocListEntry::StartxEndx(i, j, x) => with_expression(
            1 + unsigned_size(i.0) + unsigned_size(j.0),
            x,
            version,
            len,
        ),
        RawLocListEntry::StartxLength(i, n, x) => with_expression(
            1 + unsigned_size(i.0) + length_size(n, version, 4),
            x,
            version,
            len,
        ),
        RawLocListEntry::OffsetPair(b, e, x) => with_expression(
            1 + unsigned_size(b) + unsigned_size(e),
            x,
            version,
            len,
        ),
        RawLocListEntry::DefaultLocation(x) => with_expression(1, x, version, len),
        RawLocListEntry::StartEnd(_, _, x) => with_expression(1 + size + size, x, version, len),
        RawLocListEntry::StartLength(_, n, x) => with_expression(
            1 + size + unsigned_size(n),
            x,
            version,
            len,
        ),
    }
}

fn longer(entry: RawLocListEntry, len: usize, encoding: Encoding, lists: &Lists) -> bool
    ensures { result ≡ longer_in (are_locations lists.now) encoding (entry_in (are_locations lists.now) entry) len }
{
    match *lists {
        Lists::Ranges(_) => range_longer(super::raw::bounds_of(entry), len, encoding),
        Lists::Locations(_) => location_longer(entry, len, encoding),
    }
}

// The raw entry at a place, as `raw_entry` reads it, and whether some LEB128 number of it is padded; with the place after it.
pub fn noted_entry(
    section: &[u8],
    at: usize,
    encoding: Encoding,
    endian: RunTimeEndian,
    lists: &Lists,
) -> Result<Option<(Noted<RawLocListEntry>, usize)>, Error>
    ensures { let l = are_locations lists.now in let coding = coding_in lists.now in noted_step_in l (told_noted result) ≡ noted (padded_in l coding encoding endian section.now at) (step_of (read_in l coding encoding endian section.now at)) }
{
    let Some((entry, after)) = super::raw::raw_entry(section, at, encoding, endian, lists)? else {
        return Ok(None);
    };
    let padded = longer(entry, after - at, encoding, lists);
    Ok(Some((Noted { entry, padded }, after)))
}
