//! What `help version` prints.

/// The text on `version`.
pub(crate) const TEXT: &str = "\
usage: ospfcost version

Prints two lines: the version of the program, and the logic in which it was
proved, which the last line of each check names.

words
  none

status
  0  the lines were written
  5  the output failed   6  no memory   7  words

example
  ./ospfcost version
";
