// Opening a list: the address size is looked at before the offset.
#![tactic(auto, unfolding(crate::specs::Open::opened))]

ghost use Rattle.std.specs.Prelude.{◌≡◌};
ghost use Rattle.section_bytes.specs.Error.{told_value};
ghost use Rattle.lists.specs.Open.{opened};

use super::Walk;
use section_bytes::common::Encoding;
use section_bytes::error::Error;

// A walk from an offset of a section: 6 with the size, then 1 for an offset past the section's end.
pub(crate) fn open(
    section: &[u8],
    offset: u64,
    encoding: Encoding,
    base_address: u64,
) -> Result<Walk, Error>
    ensures { told_value result ≡ opened encoding section.now offset base_address }
{
    let size = encoding.address_size as u64;
    if !section_bytes::reader::is_address_size(size) {
        return Err(Error::UnsupportedAddressSize(size));
    }
    if (section.len() as u64) < offset {
        return Err(Error::UnexpectedEof);
    }
    Ok(Walk {
        at: offset as usize,
        base_address,
        entries: 0,
    })
}
