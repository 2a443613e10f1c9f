//! What `help change` prints.

/// The text on `change`.
pub(crate) const TEXT: &str = "\
usage: ospfcost change --request F [--nodes N] [--bits B] CONFIG..

Finds costs, within the bounds, under which each wanted path is the only
cheapest and as many present costs as possible stay as they are. It prints the
cost lines that differ, with evidence that fewer changes won't do. The two ends
of a symmetric link count as one.

words
  --request F  the area, the interfaces whose costs may change, wanted paths
  --nodes N    the budget: entries of a search tree, 1 to 10000000 (100000)
  --bits B     bits of the longest exact number, 28 to 127 (127)
  CONFIG..     the configurations of the routers, one or more

status
  0  the fewest changes were found: verdict fewest K
  1  no costs within the bounds will do: verdict impossible, with evidence
  2  the budget was used up: verdict undecided, maybe with costs that fit
  3  a file, the topology or the request is at fault: refused NUMBER FILE PLACE
  4  a file can't be read   5  the output failed   6  no memory   7  words

example
  ./ospfcost change --request examples/backbone/request.txt examples/backbone/*.conf
";
