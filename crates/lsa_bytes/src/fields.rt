//! Big-endian numbers in bytes.
ghost use Rattle.std.specs.Prelude.{◌≡◌, ◌+◌, ◌≤◌, length};
ghost use Rattle.lsa_bytes.specs.Fields.{number_16, number_32};

/// The number in the two bytes from a place on.
#[tactic(auto, unfolding(crate::specs::Fields::number_16))]
pub fn number_16(bytes: &[u8], at: usize) -> u16
    requires { at + 2 ≤ length bytes.now }
    ensures { result ≡ number_16 bytes.now at }
{
    u16::from_be_bytes([bytes[at], bytes[at + 1]])
}

/// The number in the four bytes from a place on.
#[tactic(auto, unfolding(crate::specs::Fields::number_32))]
pub fn number_32(bytes: &[u8], at: usize) -> u32
    requires { at + 4 ≤ length bytes.now }
    ensures { result ≡ number_32 bytes.now at }
{
    u32::from(number_16(bytes, at)) << 16 | u32::from(number_16(bytes, at + 2))
}
