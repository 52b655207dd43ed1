// The places of addresses in ascending order, and which of them wait for their answer.
ghost use Rattle.std.specs.Prelude.{◌≡◌, [], ◌∷◌, ◌+◌, ◌-◌, ◌^◌, ◌≤◌, ◌<◌, eqb, ltb, length, false};
ghost use Rattle.section_bytes.specs.Read.{pick};
ghost use Rattle.stacks.specs.Places.{at, Ascending, padded as paddedTo, Less, FirstAt, Between, Hops, WaitingFrom, Settled};

use super::MOST;
use super::answers::Rows;

// The addresses, and 2^64 - 1, which no range holds, at the places behind them.
pub type Addresses = [u64; MOST];

// A place waits where the number here is not above it. Else every place from it up to that number has its answer.
pub type Next = [usize; MOST];

// At most 64 addresses, and 2^64 - 1 behind them.
#[tactic(auto, using(crate::proofs::PlaceLaws::padded_is))]
pub(crate) fn padded(addresses: &[u64]) -> Addresses
    requires { length addresses.now ≤ 64 }
    ensures { result ≡ paddedTo addresses.now }
{
    let mut all = [0xffff_ffff_ffff_ffffu64; MOST];
    let n = addresses.len();
    all[..n].copy_from_slice(addresses);
    all
}

// 1 where a number is below another, else 0. A number, so that a search needs no branch, which would be guessed wrong half the time.
fn less(x: u64, y: u64) -> usize
    ensures { Less result x y }
{
    if x < y { 1 } else { 0 }
}

// Of twice as many places from k on, less one, the half in which the first one is whose address is not below a number.
#[tactic(auto, using(crate::proofs::PlaceLaws::halved, crate::proofs::PlaceLaws::less_times))]
fn half(addresses: &Addresses, k: usize, width: usize, x: u64) -> usize
    requires { Ascending addresses.now × (0 < width) × Between addresses.now x k (width + width - 1) }
    ensures { Between addresses.now x result (width - 1) }
{
    k + less(addresses[k + width - 1], x) * width
}

// The first place whose address is not below a number.
#[tactic(auto, using(crate::proofs::PlaceLaws::at_start, crate::proofs::PlaceLaws::at_last, crate::proofs::PlaceLaws::less_one))]
pub(crate) fn first_at(addresses: &Addresses, x: u64) -> usize
    requires { Ascending addresses.now }
    ensures { FirstAt addresses.now x result }
{
    let k32 = half(addresses, 0, 32, x);
    let k16 = half(addresses, k32, 16, x);
    let k8 = half(addresses, k16, 8, x);
    let k4 = half(addresses, k8, 4, x);
    let k2 = half(addresses, k4, 2, x);
    let k1 = half(addresses, k2, 1, x);
    k1 + less(addresses[k1], x)
}

// The address before a place; before the first, 0.
pub(crate) fn below(addresses: &Addresses, i: usize) -> u64
    requires { i ≤ 64 }
    ensures { result ≡ pick (eqb i 0) 0 (at addresses.now (i - 1)) }
{
    if i == 0 {
        return 0;
    }
    addresses[i - 1]
}

// The address at a place; behind the last, 2^64 - 1.
pub(crate) fn above(addresses: &Addresses, i: usize) -> u64
    ensures { result ≡ pick (ltb i 64) (at addresses.now i) (2 ^ 64 - 1) }
{
    if i < MOST {
        return addresses[i];
    }
    0xffff_ffff_ffff_ffff
}

// Whether a range may hold one of the addresses, as far as two neighbours among them tell: not where it begins above the one and ends
// before the other.
pub(crate) fn may_hold(before: u64, begin: u64, end: u64, after: u64) -> bool
    ensures { result ≡ false → (before < begin) × (end ≤ after) }
{
    if before < begin {
        return after < end;
    }
    true
}

// A range goes to the places that wait and whose addresses it holds, of which `first` is not above any; a place behind all that it
// holds is given back.
#[tactic(auto, using(crate::proofs::PlaceLaws::above_met, crate::proofs::PlaceLaws::above_not_met, crate::proofs::SettleLaws::settling_start, crate::proofs::SettleLaws::settled_past, crate::proofs::SettleLaws::settled_none, crate::proofs::SettleLaws::settled_some))]
pub(crate) fn settle(
    addresses: &Addresses,
    next: &mut Next,
    rows: &mut Rows,
    first: usize,
    begin: u64,
    end: u64,
    offset: u64,
    len: u64,
) -> usize
    requires { Ascending addresses.now × FirstAt addresses.now begin first × Hops next.old }
    ensures { Settled addresses.now next.old rows.old begin end (0 ∷ 0 ∷ begin ∷ end ∷ offset ∷ len ∷ []) next.new rows.new result }
{
    let mut i = first;
    while above(addresses, i) < end {
        let to = next[i];
        if to <= i {
            rows[i] = [0, 0, begin, end, offset, len];
            next[i] = i + 1;
            i += 1;
        } else {
            i = to;
        }
    }
    if first < i {
        next[first] = i;
    }
    i
}

// The first place from `low` on that waits; where none of the first n does, one at or above n.
#[tactic(auto, using(crate::proofs::PlaceLaws::hopped))]
pub(crate) fn waiting_from(next: &Next, low: usize, n: usize) -> usize
    requires { (n ≤ 64) × Hops next.now }
    ensures { WaitingFrom next.now low n result }
{
    let mut i = low;
    while i < n {
        let past = next[i];
        if past <= i {
            return i;
        }
        i = past;
    }
    i
}
