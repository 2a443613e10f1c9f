//! What `help conflict` prints.

/// The text on `conflict`.
pub(crate) const TEXT: &str = "\
usage: ospfcost conflict --request F [--nodes N] [--bits B] CONFIG..

Finds wanted paths that can't stand together within the bounds, while each set
without one of them can. Give one of them up, and ask again.

words
  --request F  the area, the interfaces whose costs may change, wanted paths
  --nodes N    the budget: entries of a search tree, 1 to 10000000 (100000)
  --bits B     bits of the longest exact number, 28 to 127 (127)
  CONFIG..     the configurations of the routers, one or more

status
  0  verdict core: `members N I ..` numbers the paths of the conflict from 0,
     with evidence, and for each `without I` and costs that fit the others; or
     verdict none: all paths can stand together, with costs that do it
  2  the budget was used up: verdict undecided
  3  a file, the topology or the request is at fault: refused NUMBER FILE PLACE
  4  a file can't be read   5  the output failed   6  no memory   7  words

example
  ./ospfcost conflict --request examples/conflict/request.txt examples/conflict/*.conf
";
