//! Pieces of text, each added at the end of a text.
ghost use Rattle.std.specs.Prelude.{◌≡◌, ◌∷◌, ◌++◌, OnOk};
ghost use Rattle.cost_base.specs.Decimal.{decimal};
ghost use Rattle.trial_maker.specs.TrialTexts.{interface_text};

use cost_base::OutOfMemory;
use line_builder::push_quad;
use text_lines::{push_bytes, push_number};

/// Adds the name of a router or of an interface: its letter and its number.
pub(crate) fn push_name(text: &mut Vec<u8>, letter: u8, number: u32) -> Result<(), OutOfMemory>
    ensures { OnOk result (text.new.items ≡ text.old.items ++ letter ∷ decimal number) }
{
    push_bytes(text, &[letter])?;
    push_number(text, u128::from(number))
}

/// Adds the lines of an interface of this number with this address.
pub(crate) fn push_interface(
    text: &mut Vec<u8>,
    number: u32,
    address: u32,
) -> Result<(), OutOfMemory>
    ensures { OnOk result (text.new.items ≡ text.old.items ++ interface_text number address) }
{
    push_bytes(text, b"interface ")?;
    push_name(text, b'e', number)?;
    push_bytes(text, b"\n ip address ")?;
    push_quad(text, address)?;
    push_bytes(
        text,
        b"/31\n ip ospf area 0\n ip ospf network point-to-point\nexit\n",
    )
}
