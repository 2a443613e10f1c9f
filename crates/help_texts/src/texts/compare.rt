//! What `help compare` prints.

/// The text on `compare`.
pub(crate) const TEXT: &str = "\
usage: ospfcost compare --live L --request F CONFIG..

Tells where the running area differs from its configurations: a line for each
difference, and at the end how many interfaces run at the cost of their file.
  absent ROUTER                           no LSA of this configuration's router
  cost ROUTER INTERFACE file C live D     runs at D, its file says C
  missing ROUTER INTERFACE                the running area has no such link
  stranger ROUTERID                       an LSA of a router without a file
  unknown ROUTERID ADDRESS live D         a link that no file has
  same N of M                             N of M linked interfaces are the same

words
  --live L     the running area: what a router prints to
               `show ip ospf database router json`, or LSA bytes
  --request F  the area, and the cost of interfaces without a cost line
  CONFIG..     the configurations of the routers, one or more, each with an
               `ospf router-id`

status
  0  there is no difference: `same M of M` alone
  1  there is one
  3  a file or the topology is at fault: refused NUMBER FILE PLACE
  4  a file can't be read   5  the output failed   6  no memory   7  words

example
  ./ospfcost compare --live examples/database/area.lsa --request examples/database/request.txt examples/database/*.conf
";
