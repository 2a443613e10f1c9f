//! What `help audit` prints.

/// The text on `audit`.
pub(crate) const TEXT: &str = "\
usage: ospfcost audit --request F [--live L] CONFIG..

Tells how the wanted paths stand at present costs: those of the configurations,
or those at which the area runs, where L is the database of one of its routers.
It prints a line for each wanted path:
  path I cost C least L WORD
I is its number from 0, C its cost, L the least cost of its request. WORD is
`only` where it is the only cheapest path, `tied` where another one costs as
much, `beaten` where one costs less. Of a running area a path over an interface
without a link has the line `path I gone least L`, or `path I gone unreachable`.

words
  --request F  the area and the wanted paths
  --live L     the running area: what a router prints to
               `show ip ospf database router json`, or LSA bytes
  CONFIG..     the configurations of the routers, one or more

status
  0  the lines were written, whatever they say
  3  a file, the topology or the request is at fault: refused NUMBER FILE PLACE
  4  a file can't be read   5  the output failed   6  no memory   7  words

example
  ./ospfcost audit --request examples/backbone/request.txt examples/backbone/*.conf
";
