//! What `help steps` prints.

/// The text on `steps`.
pub(crate) const TEXT: &str = "\
usage: ospfcost steps --request F --answer A [--nodes N] [--by line|router] CONFIG..

Finds an order for the cost lines of A that differ from the present costs: each
wanted path that is the only cheapest both at present and at the end stays so
after each step.

words
  --request F  the area and the wanted paths
  --answer A   a text with costs, as `design`, `total`, `spread` or `change`
               prints it
  --nodes N    the budget: states that are tested, 1 to 10000000 (100000)
  --by UNIT    what one step is: a cost line (line), or all of a router
               (router); line unless given
  CONFIG..     the configurations of the routers as they are, one or more

status
  0  verdict order: the steps in their order, with both costs
  1  verdict none: no order holds these paths; the most that can be done, and
     what each next step would lose
  2  the budget was used up: verdict undecided
  3  a file, the topology or the request is at fault: refused NUMBER FILE PLACE
  4  a file can't be read   5  the output failed   6  no memory   7  words
  8  the text is off its form, or doesn't fit the network: rejected NUMBER PLACE

example
  ./ospfcost steps --request examples/backbone/request.txt --answer examples/backbone/change.txt examples/backbone/*.conf
";
