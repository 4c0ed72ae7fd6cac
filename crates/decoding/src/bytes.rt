// Numbers of several bytes, low byte first.
ghost use Rattle.std.specs.Prelude.{◌≡◌, ℕ, ◌+◌, ◌≤◌, ◌<◌, length};
ghost use Rattle.decoding.specs.Bytes.{le16, le32, signed32, Each};

// The 16-bit number at place `at`.
pub(crate) fn u16_at(bytes: &[u8], at: usize) -> u16
    requires { at + 2 ≤ length bytes.now }
    ensures { result ≡ le16 bytes.now at }
{
    u16::from_le_bytes([bytes[at], bytes[at + 1]])
}

// The signed 32-bit number at place `at`.
pub(crate) fn i32_at(bytes: &[u8], at: usize) -> i32
    requires { at + 4 ≤ length bytes.now }
    ensures { result ≡ signed32 (le32 bytes.now at) }
{
    i32::from_le_bytes([bytes[at], bytes[at + 1], bytes[at + 2], bytes[at + 3]])
}

// Writes to each place of a list what `value` gives for its number.
pub(crate) fn fill<T: Copy, F: Fn(usize) -> T>(list: &mut [T], value: F)
    requires { (i : ℕ) → i < length list.old → F.pre value i }
    ensures { Each (F.post value) 0 list.new }
{
    for (i, place) in list.iter_mut().enumerate() {
        *place = value(i);
    }
}
