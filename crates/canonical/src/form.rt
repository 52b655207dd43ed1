// Whether bytes are a canonical list: read once from front to end, and nothing is kept but the end of the range before.
ghost use Rattle.std.specs.Prelude.{true, ◌↔◌, ◌≡◌, ◌+◌};
ghost use Rattle.lists.specs.Walks.{InBounds};
ghost use Rattle.canonical.specs.Form.{CanonicalForm, Decides, PieceAt};

use coverage::LIMIT;
use entries::constants;
use section_bytes::endianity::RunTimeEndian;
use section_bytes::leb128::unsigned_size;

// What stands at a place of a canonical list: the end mark as the last byte; or the entry of a range, by begin, end and the place
// after it.
#[derive(Clone, Copy)]
enum Piece {
    End,
    Entry(u64, u64, usize),
}

// Whether a begin and a length make a range that a coverage may keep.
fn is_range(begin: u64, length: u64) -> bool
    ensures { Decides result (InBounds 8 begin (begin + «length»)) }
{
    if section_bytes::address::min_tombstone(8) <= begin {
        return false;
    }
    if length == 0 {
        return false;
    }
    if u64::MAX - begin < length {
        return false;
    }
    true
}

// The piece at a place, or none.
fn piece_at(bytes: &[u8], at: usize) -> Option<Piece>
    ensures { PieceAt bytes.now at result }
{
    let Ok((code, c)) = section_bytes::reader::read_u8(bytes, at) else {
        return None;
    };
    if code == constants::DW_RLE_end_of_list {
        if c < bytes.len() {
            return None;
        }
        return Some(Piece::End);
    }
    if code != constants::DW_RLE_start_length {
        return None;
    }
    let Ok((begin, c1)) = section_bytes::reader::read_u64(bytes, c, RunTimeEndian::Little) else {
        return None;
    };
    let Ok((length, c2)) = section_bytes::leb128::unsigned(bytes, c1) else {
        return None;
    };
    if unsigned_size(length) != c2 - c1 {
        return None;
    }
    if is_range(begin, length) {
        return Some(Piece::Entry(begin, begin + length, c2));
    }
    None
}

// Whether bytes are the canonical list of some coverage.
pub fn is_canonical(bytes: &[u8]) -> bool
    ensures { (result ≡ true) ↔ CanonicalForm bytes.now }
{
    let mut at: usize = 0;
    let mut n: usize = 0;
    let mut last: u64 = 0;
    while n <= LIMIT {
        match piece_at(bytes, at) {
            Some(Piece::End) => {
                return true;
            }
            None => {
                return false;
            }
            Some(Piece::Entry(begin, end, c)) => {
                if 0 < n {
                    if begin <= last {
                        return false;
                    }
                }
                at = c;
                last = end;
                n += 1;
            }
        }
    }
    false
}
