//! Whether bytes begin a line of a known form.
ghost use Rattle.std.specs.Prelude.{◌≡◌, ℕ, ◌<◌, ◌≤◌, ◌++◌, IsTrue, ◌↔◌, length};
ghost use Rattle.begun_lines.specs.Begun.{IsLineFront, BeginsNumber, BeginsName};

use answer_lines::{LONGEST, name_after, number_after};

/// Whether this line begins with these bytes.
pub(crate) fn begins_line(rest: &[u8], line: &[u8]) -> bool
    ensures { IsTrue result ↔ IsLineFront rest.now line.now }
{
    line.starts_with(rest)
}

/// Whether these bytes begin a line of this front, with a number behind it that is at most `greatest`.
pub(crate) fn begins_number(rest: &[u8], front: &[u8], greatest: u128) -> bool
    ensures { IsTrue result ↔ BeginsNumber rest.now front.now greatest }
{
    begins_line(rest, front) || number_after(rest, front, greatest).is_some()
}

/// Whether these bytes begin a line of this front, with a name behind it, that has at most 65,536 bytes.
pub(crate) fn begins_name(rest: &[u8], front: &[u8]) -> bool
    requires { length front.now < 65536 }
    ensures { IsTrue result ↔ BeginsName rest.now front.now }
{
    rest.len() <= LONGEST && (begins_line(rest, front) || name_after(rest, front).is_some())
}
