// Tables of kind numbers: an older compiler has other codes for the kinds of range list entries. A table has at each code the
// number of its kind, 0 to 7, or 255 where the code has none.
ghost use Rattle.std.specs.Prelude.{◌≡◌, ◌&&◌, ltb};
ghost use Rattle.entries.specs.Numbers.{numbers_of, codes_of, are_numbers, none_twice, loading, told_loading};

use super::constants;
use section_bytes::error::Error;

// The number of a code's kind: the code itself, or what a table has there; past its end it has none.
pub(crate) fn kind_number(code: u64, kinds: Option<&[u8]>) -> u64
    ensures { result ≡ numbers_of kinds.entry code }
{
    let Some(table) = kinds else {
        return code;
    };
    if code < table.len() as u64 {
        return table[code as usize] as u64;
    }
    constants::NO_KIND
}

// No byte is 8 to 254, no kind has two codes, and kind 0 has one.
#[tactic(auto, using(crate::proofs::TableLaws::seen_twice, crate::proofs::TableLaws::seen_wrong, crate::proofs::TableLaws::seen_all))]
fn is_lawful(table: &[u8]) -> bool
    ensures { result ≡ (are_numbers table.now && none_twice 8 table.now && ltb 0 (codes_of 0 table.now)) }
{
    let mut coded = [false; 8];
    for &number in table {
        if number < 8 {
            if coded[number as usize] {
                return false;
            }
            coded[number as usize] = true;
        } else if number as u64 != constants::NO_KIND {
            return false;
        }
    }
    coded[0]
}

// Whether a table may be used: 19 unless it has 256 bytes, each a kind's number or 255, no kind two codes, and kind 0 one.
#[tactic(auto, unfolding(crate::specs::Numbers::loading, crate::specs::Numbers::is_table))]
pub fn load(table: &[u8]) -> Result<(), Error>
    ensures { told_loading result ≡ loading table.now }
{
    if table.len() != 256 {
        return Err(Error::BadKindTable);
    }
    if !is_lawful(table) {
        return Err(Error::BadKindTable);
    }
    Ok(())
}
