//! Names of routers.
ghost use Rattle.std.specs.Prelude.{◌≡◌};
ghost use Rattle.std.specs.List.{list_all};
ghost use Rattle.config_reader.specs.RouterNames as definition;

use text_lines::cut;

/// The longest name of a router, in bytes.
const LONGEST_NAME: usize = 64;

/// Whether a byte may stand in the name of a router: a letter of ASCII, a digit, `-`, `_` or `.`.
fn is_name_byte(byte: u8) -> bool
    ensures { result ≡ definition.is_name_byte byte }
{
    b'A' <= byte && byte <= b'Z'
        || b'a' <= byte && byte <= b'z'
        || b'0' <= byte && byte <= b'9'
        || byte == b'-'
        || byte == b'_'
        || byte == b'.'
}

/// Whether the bytes are a name of a router: 1 to 64 letters of ASCII, digits, `-`, `_` and `.`.
pub(crate) fn is_router_name(name: &[u8]) -> bool
    ensures { result ≡ definition.is_router_name name.now }
{
    1 <= name.len() && name.len() <= LONGEST_NAME && has_name_bytes(name)
}

/// Whether each byte may stand in the name of a router.
fn has_name_bytes(name: &[u8]) -> bool
    ensures { result ≡ list_all definition.is_name_byte name.now }
{
    name.iter().all(|byte| is_name_byte(*byte))
}

/// The part of a file's name that names its router: after the last `/`, up to the first `.` behind it.
pub(crate) fn name_of_file(file_name: &[u8]) -> &[u8]
    ensures { result.now ≡ definition.before_first_dot (definition.after_last_slash file_name.now) }
{
    let last = after_last_slash(file_name);
    match cut(last, b'.') {
        Some((name, _)) => name,
        None => last,
    }
}

/// The bytes behind the last `/`.
fn after_last_slash(file_name: &[u8]) -> &[u8]
    ensures { result.now ≡ definition.after_last_slash file_name.now }
{
    let mut left = file_name;
    while let Some((_, behind)) = cut(left, b'/') {
        left = behind;
    }
    left
}
