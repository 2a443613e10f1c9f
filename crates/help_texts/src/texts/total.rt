//! What `help total` prints.

/// The text on `total`.
pub(crate) const TEXT: &str = "\
usage: ospfcost total --request F [--nodes N] [--bits B] CONFIG..

Finds, of the costs that `design` may answer, some whose sum is as small as
possible, and prints them with evidence for both: that no smaller greatest cost
will do, and that under this greatest cost no smaller sum will.

words
  --request F  the area, the interfaces whose costs may change, wanted paths
  --nodes N    the budget: entries of a search tree, 1 to 10000000 (100000)
  --bits B     bits of the longest exact number, 28 to 127 (127)
  CONFIG..     the configurations of the routers, one or more

status
  0  the least sum was found: an answer with verdict optimal K, then total C
  1  no costs within the bounds will do: what `design` prints then
  2  the budget was used up: what `design` prints then, or the total that was
     found, and the bound below which nothing is decided
  3  a file, the topology or the request is at fault: refused NUMBER FILE PLACE
  4  a file can't be read   5  the output failed   6  no memory   7  words

example
  ./ospfcost total --request examples/total/request.txt examples/total/*.conf
";
