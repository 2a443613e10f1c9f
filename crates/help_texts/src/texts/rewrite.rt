//! What `help rewrite` prints.

/// The text on `rewrite`.
pub(crate) const TEXT: &str = "\
usage: ospfcost rewrite --answer A CONFIG

Prints the configuration with the costs that A has for its router: the old cost
lines of the named interfaces are gone, the new ones stand behind the heads of
their interfaces, and all else is as it was, byte by byte. The evidence in A
isn't looked at: `check` does that.

words
  --answer A  a text with costs, as `design`, `total`, `spread` or `change`
              prints it
  CONFIG      the configuration of one router

status
  0  the configuration was written
  3  the configuration is at fault, or a file is too long: refused NUMBER FILE PLACE
  4  a file can't be read   5  the output failed   6  no memory   7  words
  8  the text is off its form, has no costs, or names an interface that has no
     head in the configuration: rejected NUMBER PLACE

example
  ./ospfcost rewrite --answer examples/rewrite/answer.txt examples/rewrite/A.conf
";
