//! What `help help` prints.

/// The text on `help` itself.
pub(crate) const TEXT: &str = "\
usage: ospfcost help [COMMAND]

Tells what the commands do, a line for each, or what one of them answers: its
words with their ranges (and, in brackets, what stands for a word that isn't
given), the statuses that it may end with, and an example that runs from the top
of the repository.

words
  COMMAND  a command: design, check, audit, rewrite, trial, conflict, spread,
           total, change, steps, compare, lsas, route, help or version

status
  0  the text was written
  5  the output failed   6  no memory   7  words

example
  ./ospfcost help design
";
