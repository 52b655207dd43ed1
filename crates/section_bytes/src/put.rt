// Numbers put into lent bytes.
ghost use Rattle.std.specs.Prelude.{◌≡◌, ◌+◌, length, nat_le};
ghost use Rattle.std.proofs.lemmas.List.Edits.{sets};
ghost use Rattle.section_bytes.specs.Read.{pick};
ghost use Rattle.section_bytes.specs.Written.{little_bytes};

// The eight bytes of x, the lowest first, from a place on; where they do not lie in the output, nothing.
#[tactic(auto, using(crate::proofs::PutLaws::part_put))]
pub fn put_u64(out: &mut [u8], at: usize, x: u64)
    ensures { out.new ≡ pick (nat_le (at + 8) (length out.old)) (sets out.old at (little_bytes 8 x)) out.old }
{
    if out.len() < at {
        return;
    }
    if out.len() - at < 8 {
        return;
    }
    out[at..at + 8].copy_from_slice(&x.to_le_bytes());
}
