//! What `help route` prints.

/// The text on `route`.
pub(crate) const TEXT: &str = "\
usage: ospfcost route --lsas L --from A.B.C.D --to A.B.C.D

Tells the route from one router to another by the LSAs of an area: the least
cost, and the router IDs, or the addresses of designated routers, at which the
first edges of the cheapest paths end. Several share the traffic. It prints
  from A to B cost C first X ..
or `from A to B unreachable`. Of several instances of an LSA the newest counts.

words
  --lsas L   LSAs one behind the other, as `lsas` writes them, or as they were
             captured from routers (RFC 2328, A.4)
  --from ID  the router ID of the first router, a dotted quad
  --to ID    the router ID of the last router, a dotted quad

status
  0  the line was written
  3  the file is at fault, or has no LSA of a router: refused NUMBER FILE PLACE
  4  the file can't be read   5  the output failed   6  no memory   7  words

example
  ./ospfcost route --lsas examples/database/area.lsa --from 198.18.0.2 --to 198.18.0.4
";
