//! Numbers as decimal digits.
ghost use Rattle.std.specs.Prelude.{◌≡◌, ◌<◌, ◌≤◌, ◌^◌, ◌+◌, ℕ, length, take, OnOk, OnErr};
ghost use Rattle.cost_base.specs.Decimal.{decimal};
ghost use Rattle.cost_base.specs.Outside.{HasCause, GotAll, GotPart};

use cost_base::{PutFailed, Sink};

/// Writes the decimal digits of a number, without leading zeros, into the first places of `room`, and tells how many
/// they are: 1 to 39.
pub fn number_bytes(value: u128, room: &mut [u8; 40]) -> usize
    ensures some { 1 ≤ result }
    ensures within { result ≤ 39 }
    ensures count { result ≡ length (decimal value) }
    ensures digits { take result room.new ≡ decimal value }
{
    let before = if value < 10 {
        0
    } else {
        number_bytes(value / 10, room)
    };
    room[before] = b'0' + (value % 10) as u8;
    before + 1
}

/// Puts the decimal digits of a number, without leading zeros, by one `put`. A refusal has its cause in the sink.
///
/// # Errors
///
/// What the sink refused.
pub fn put_number<K: Sink>(value: u128, out: &mut K) -> Result<(), PutFailed>
    ensures whole { OnOk result (GotAll (K.got out.old) (K.got out.new) (decimal value)) }
    ensures part { OnErr result (GotPart (K.got out.old) (K.got out.new) (decimal value)) }
    ensures cause { HasCause (K.faults out.old) (K.faults out.new) result }
{
    let mut room = [0; 40];
    let length = number_bytes(value, &mut room);
    out.put(&room[..length])
}
