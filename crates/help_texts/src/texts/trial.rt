//! What `help trial` prints.

/// The text on `trial`.
pub(crate) const TEXT: &str = "\
usage: ospfcost trial --blocks T [--start S]

Makes a network and wanted paths, designs it as `design` does with the usual
limits, and prints one line:
  trial blocks T start S routers R interfaces I requests P verdict V greatest K total C
It reads no file: it shows how far the search goes, and tries an installation.

words
  --blocks T  how many blocks of routers the chain has, 1 to 125
  --start S   what the sides of the blocks are chosen by, 0 to 2147483647 (1)

status
  0  best costs were found
  1  no costs will do; the answer stands behind the line
  2  the budget was used up; the answer stands behind the line
  5  the output failed   6  no memory   7  words

example
  ./ospfcost trial --blocks 3 --start 7
";
