//! What `help design` prints.

/// The text on `design`.
pub(crate) const TEXT: &str = "\
usage: ospfcost design --request F [--nodes N] [--bits B] CONFIG..

Finds interface costs, within the bounds of the request, under which each
wanted path is the only cheapest simple path between its ends. Of all such
costs it finds some whose greatest is as small as possible, and prints them as
the lines to put behind each configuration, with evidence that no smaller
greatest cost will do, or that no such costs exist. `check` reads the evidence.

words
  --request F  the area, the interfaces whose costs may change, wanted paths
  --nodes N    the budget: entries of a search tree, 1 to 10000000 (100000)
  --bits B     bits of the longest exact number, 28 to 127 (127)
  CONFIG..     the configurations of the routers, one or more

status
  0  best costs were found: verdict optimal K, K being the greatest cost
  1  no costs within the bounds will do: verdict impossible
  2  the budget was used up: verdict undecided budget CAP, and what is certain
  3  a file, the topology or the request is at fault: refused NUMBER FILE PLACE
  4  a file can't be read   5  the output failed   6  no memory   7  words

example
  ./ospfcost design --request examples/pair/request.txt examples/pair/A.conf examples/pair/B.conf
";
