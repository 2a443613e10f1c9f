//! Where the tokens of a JSON text begin, and on which lines.
ghost use Rattle.std.specs.Prelude.{◌≡◌, ◌-◌, ◌<◌, ◌≤◌, ◌^◌, length};
ghost use Rattle.json.specs.Word as word;
ghost use Rattle.live_reader.specs.Texts as definition;

/// What a byte of a text stands in.
#[derive(Clone, Copy, Drop)]
pub enum Within {
    /// Between tokens.
    Blank,
    /// In a number or a literal.
    Word,
    /// Between quotes.
    Text,
    /// Between quotes behind a backslash.
    Escape,
}

/// Whether a byte is a blank of JSON: a space, a tab, LF or CR.
pub fn is_space(byte: u8) -> bool
    ensures { result ≡ word.is_space byte }
{
    byte == b' ' || byte == b'\t' || byte == b'\n' || byte == b'\r'
}

/// Whether a byte is a brace or a bracket.
fn is_bracket(byte: u8) -> bool
    ensures { result ≡ definition.is_bracket byte }
{
    byte == b'{' || byte == b'}' || byte == b'[' || byte == b']'
}

/// Whether a byte is a brace, a bracket, a colon or a comma.
fn is_operator(byte: u8) -> bool
    ensures { result ≡ word.is_operator byte }
{
    byte == b'{' || byte == b'}' || byte == b'[' || byte == b']' || byte == b':' || byte == b','
}

/// Whether a byte begins a token.
fn begins_token(within: Within, byte: u8) -> bool
    ensures { result ≡ definition.begins_token within byte }
{
    match within {
        Within::Blank => {
            let space = is_space(byte);
            !(space || byte == b',' || byte == b':')
        }
        Within::Word => is_bracket(byte),
        Within::Text => false,
        Within::Escape => false,
    }
}

/// What stands behind a byte between tokens that begins no text.
fn word_behind(byte: u8) -> Within
    ensures { result ≡ definition.word_behind byte }
{
    let space = is_space(byte);
    if is_operator(byte) || space {
        Within::Blank
    } else {
        Within::Word
    }
}

/// What stands behind a byte between quotes.
fn text_behind(byte: u8) -> Within
    ensures { result ≡ definition.behind Within.Text byte }
{
    if byte == b'"' {
        Within::Blank
    } else if byte == b'\\' {
        Within::Escape
    } else {
        Within::Text
    }
}

/// What stands behind a byte.
fn behind(within: Within, byte: u8) -> Within
    ensures { result ≡ definition.behind within byte }
{
    match within {
        Within::Blank => {
            if byte == b'"' {
                Within::Text
            } else {
                word_behind(byte)
            }
        }
        Within::Word => word_behind(byte),
        Within::Text => text_behind(byte),
        Within::Escape => Within::Text,
    }
}

/// The offset of the token of a number, counted from 0; that of the end where there are fewer tokens.
fn token_start(text: &[u8], number: usize) -> usize
    ensures start { result ≡ definition.token_start Within.Blank number text.now }
    ensures within { result ≤ length text.now }
{
    let mut within = Within::Blank;
    let mut left = number;
    for offset in 0..text.len() {
        let byte = text[offset];
        if begins_token(within, byte) {
            if left == 0 {
                return offset;
            }
            left -= 1;
        }
        within = behind(within, byte);
    }
    text.len()
}

/// The line of an offset, from 1.
pub fn line_of_offset(text: &[u8], offset: usize) -> u32
    requires within { offset ≤ length text.now }
    requires few { length text.now < 2 ^ 32 - 1 }
    ensures { result ≡ definition.line_of_offset text.now offset }
{
    let (before, _) = text.split_at(offset);
    let mut line = 1;
    for byte in before {
        if *byte == b'\n' {
            line += 1;
        }
    }
    line
}

/// The line on which the token of a number begins.
pub fn token_line(text: &[u8], number: usize) -> u32
    requires { length text.now < 2 ^ 32 - 1 }
    ensures { result ≡ definition.token_line text.now number }
{
    line_of_offset(text, token_start(text, number))
}
