// The value of one, two, three, four or eight bytes in either order: three as two loads, the others as one.
ghost use Rattle.std.specs.Prelude.{◌≡◌, ◌+◌, ◌%◌, ◌≤◌, true, length, take, drop};
ghost use Rattle.section_bytes.specs.Endianity.{value};
ghost use Rattle.section_bytes.specs.Reader.{is_size};

#[derive(Clone, Copy)]
pub enum RunTimeEndian {
    Little,
    Big,
}

// The two, four or eight bytes from a place on.
fn two(s: &[u8], at: usize) -> [u8; 2]
    requires { at + 2 ≤ length s.now }
    ensures { result ≡ take 2 (drop at s.now) }
{
    [s[at], s[at + 1]]
}

fn four(s: &[u8], at: usize) -> [u8; 4]
    requires { at + 4 ≤ length s.now }
    ensures { result ≡ take 4 (drop at s.now) }
{
    [s[at], s[at + 1], s[at + 2], s[at + 3]]
}

fn eight(s: &[u8], at: usize) -> [u8; 8]
    requires { at + 8 ≤ length s.now }
    ensures { result ≡ take 8 (drop at s.now) }
{
    [
        s[at],
        s[at + 1],
        s[at + 2],
        s[at + 3],
        s[at + 4],
        s[at + 5],
        s[at + 6],
        s[at + 7],
    ]
}

// One byte, or three, in either order.
fn odd_value(s: &[u8], at: usize, size: usize, endian: RunTimeEndian) -> u64
    requires { (size % 2 ≡ 1) × (size ≤ 3) × (at + size ≤ length s.now) }
    ensures { result ≡ value endian (take size (drop at s.now)) }
{
    let first = s[at] as u64;
    if size < 2 {
        return first;
    }
    let rest = two(s, at + 1);
    match endian {
        RunTimeEndian::Little => first + (u16::from_le_bytes(rest) as u64) * 256,
        RunTimeEndian::Big => first * 65536 + (u16::from_be_bytes(rest) as u64),
    }
}

// The value of the size bytes from a place on, which lie in the section. One and three are told apart last, and once for both orders:
// no other size pays for the third, and the whole stays short enough to be compiled into its callers.
pub(crate) fn bytes_value(s: &[u8], at: usize, size: usize, endian: RunTimeEndian) -> u64
    requires { (is_size size ≡ true) × (at + size ≤ length s.now) }
    ensures { result ≡ value endian (take size (drop at s.now)) }
{
    match endian {
        RunTimeEndian::Little => {
            if size == 8 {
                return u64::from_le_bytes(eight(s, at));
            }
            if size == 4 {
                return u32::from_le_bytes(four(s, at)) as u64;
            }
            if size == 2 {
                return u16::from_le_bytes(two(s, at)) as u64;
            }
        }
        RunTimeEndian::Big => {
            if size == 8 {
                return u64::from_be_bytes(eight(s, at));
            }
            if size == 4 {
                return u32::from_be_bytes(four(s, at)) as u64;
            }
            if size == 2 {
                return u16::from_be_bytes(two(s, at)) as u64;
            }
        }
    }
    odd_value(s, at, size, endian)
}
