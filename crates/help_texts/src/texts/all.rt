//! What `help` prints.

/// The text on all commands.
pub(crate) const TEXT: &str = "\
usage: ospfcost COMMAND WORD..

ospfcost designs the interface costs of one OSPF area (OSPFv2, RFC 2328). It
reads the configurations of the routers, as FRRouting saves them, and a request:
which interfaces may change their costs, within which bounds, and which paths
traffic has to take.

commands
  audit     how do wanted paths stand at present costs, or in the running area?
  design    which costs make them the only cheapest, the greatest cost least?
  check     is this answer of `design` valid?
  rewrite   the configuration of a router with the new costs
  conflict  which wanted paths can't stand together?
  spread    which costs share traffic over exactly the listed paths?
  total     which of the best costs have the least sum?
  change    which few present costs have to change?
  steps     in which order can the changes be made?
  compare   where does the running area differ from its configurations?
  lsas      the area of the configurations as LSA bytes
  route     a route in LSA bytes
  trial     a network that is made and designed, to try an installation
  help      this text, or with a COMMAND what that one does
  version   the program's version, and what it was proved with

status
  0  done            what was asked for was found, or the report was written
  1  impossible      no costs within the bounds, or no order; or a difference
  2  undecided       the budget of --nodes was used up
  3  input refused   a file, the topology or the request is at fault
  4  read fault      5  write fault      6  out of memory
  7  words refused   the words are off the table: the usage text is printed
  8  evidence refused   a text with costs or evidence isn't right

example
  ./ospfcost help design
";
