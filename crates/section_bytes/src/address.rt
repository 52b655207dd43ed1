// Sums of addresses, kept to an address size.
ghost use Rattle.std.specs.Prelude.{◌≡◌};
ghost use Rattle.section_bytes.specs.Address.{add_sized, ones, min_tombstone};

// The low 8 * size bits set. A size of 8 or more keeps all 64; below it, 63 ones are shifted, so that the shift of size 0, by 63,
// is one that there is.
#[tactic(auto, using(crate::proofs::AddressLaws::ones_wide, crate::proofs::AddressLaws::ones_shifted))]
pub fn ones_sized(size: u8) -> u64
    ensures { result ≡ ones size }
{
    if 8 <= size {
        return u64::MAX;
    }
    0x7fff_ffff_ffff_ffff >> (63 - 8 * (size as u64))
}

// The sum modulo 2^64, of which the low 8 * size bits are kept.
#[tactic(auto, using(crate::proofs::AddressLaws::masked))]
pub fn wrapping_add_sized(address: u64, length: u64, size: u8) -> u64
    ensures { result ≡ add_sized address «length» size }
{
    address.wrapping_add(length) & ones_sized(size)
}

// The first address that stands for code that is not there: -2 in the size's bits.
pub fn min_tombstone(size: u8) -> u64
    ensures { result ≡ min_tombstone size }
{
    wrapping_add_sized(0, 0xffff_ffff_ffff_fffe, size)
}
