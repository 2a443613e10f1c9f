//! Laws about the definitions: each is the contract of a function that does nothing.
ghost use Rattle.text_lines.specs.Laws.{LinesAdd, LinesReadBack, NumbersReadBack, WordsReadBack};

/// A text of lines that each end with an LF has these lines.
pub fn lines_read_back()
    ensures { LinesReadBack }
{}

/// A text that follows a whole line adds its own lines; so it does behind an LF that ends the last line.
pub fn lines_add()
    ensures { LinesAdd }
{}

/// Words with one space between each two are read back, also behind a space.
pub fn words_read_back()
    ensures { WordsReadBack }
{}

/// A printed number is one word of bounded length that no other number has, and is read back.
pub fn numbers_read_back()
    ensures { NumbersReadBack }
{}
