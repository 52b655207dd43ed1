// How many raw entries were read; 2^64 - 1 is the highest count and stays.
#![tactic(auto, using(crate::proofs::CountLaws::one_more_is, crate::proofs::RisenLaws::risen_is))]

ghost use Rattle.std.specs.Prelude.{◌≡◌};
ghost use Rattle.lists.specs.Open.{one_more};
ghost use Rattle.lists.specs.Risen.{risen_by};

// One entry more.
pub fn one_more(entries: u64) -> u64
    ensures { result ≡ one_more entries }
{
    entries.saturating_add(1)
}

// So many more.
pub fn risen(entries: u64, by: u64) -> u64
    ensures { result ≡ risen_by entries by }
{
    entries.saturating_add(by)
}
