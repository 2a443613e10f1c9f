//! What `help spread` prints.

/// The text on `spread`.
pub(crate) const TEXT: &str = "\
usage: ospfcost spread --request F --sets G [--nodes N] [--bits B] CONFIG..

Finds costs under which traffic takes exactly the listed paths: the wanted
paths of each set cost the same, and every other simple path between their ends
costs more. A wanted path that no set names has to be the only cheapest.

words
  --request F  the area, the interfaces whose costs may change, wanted paths
  --sets G     which wanted paths share traffic: the head `ospfcost spread 1`,
               then lines `set I I ..` with their numbers from 0
  --nodes N    the budget: entries of a search tree, 1 to 10000000 (100000)
  --bits B     bits of the longest exact number, 28 to 127 (127)
  CONFIG..     the configurations of the routers, one or more

status
  0  verdict fit, and costs
  1  no costs within the bounds will do: verdict impossible, with evidence
  2  the budget was used up: verdict undecided
  3  a file, the topology or the request is at fault: refused NUMBER FILE PLACE
  4  a file can't be read   5  the output failed   6  no memory   7  words

example
  ./ospfcost spread --request examples/spread/request.txt --sets examples/spread/sets.txt examples/spread/*.conf
";
