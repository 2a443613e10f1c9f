//! What `help check` prints.

/// The text on `check`.
pub(crate) const TEXT: &str = "\
usage: ospfcost check --request F --answer A CONFIG..

Tells whether A is the text of a valid answer of `design` for this request and
these configurations, whoever made it: costs that make each wanted path the
only cheapest, with evidence that no smaller greatest cost will do, or evidence
that there are no such costs. It searches for nothing.

words
  --request F  the area, the interfaces whose costs may change, wanted paths
  --answer A   the answer, as `design` prints it
  CONFIG..     the configurations of the routers, one or more

status
  0  the answer is valid: accepted optimal K, or accepted impossible
  3  a file, the topology or the request is at fault: refused NUMBER FILE PLACE
  4  a file can't be read   5  the output failed   6  no memory   7  words
  8  the answer isn't valid: rejected NUMBER PLACE, the first fault

example
  ./ospfcost check --request examples/check-optimal/request.txt --answer examples/check-optimal/answer.txt examples/check-optimal/*.conf
";
