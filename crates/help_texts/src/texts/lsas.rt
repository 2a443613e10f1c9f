//! What `help lsas` prints.

/// The text on `lsas`.
pub(crate) const TEXT: &str = "\
usage: ospfcost lsas --request F CONFIG..

Writes the router-LSAs and network-LSAs that the routers of these configurations
would originate at present costs (RFC 2328, A.4), one behind the other, as
bytes. `route` reads them. Stub links aren't among them, flags and checksums are
0, the age is 0: don't feed them to a router.

words
  --request F  the area, and the cost of interfaces without a cost line
  CONFIG..     the configurations of the routers, one or more, each with an
               `ospf router-id`

status
  0  the LSAs were written
  3  a file, the topology or the request is at fault: refused NUMBER FILE PLACE
  4  a file can't be read   5  the output failed   6  no memory   7  words

example
  ./ospfcost lsas --request examples/database/request.txt examples/database/*.conf > written.lsa
";
