//! What the number of each refusal and of each rejection says, by what its place is.

ghost use Rattle.std.specs.Prelude.{◌≡◌};
ghost use Rattle.std.specs.Option.{option_copied};
ghost use Rattle.refusal_sentences.specs.Meanings as table;

/// What the number of a refusal says whose place is a line of a configuration.
pub(crate) fn said_of_configuration(number: u8) -> Option<&'static str>
    ensures { option_copied result ≡ table.saying_of table.configuration_sayings number }
{
    Some(match number {
        1 => "the line has more than 4,096 bytes",
        2 => "an address or router ID is missing or off its form A.B.C.D/M or A.B.C.D",
        3 => "a cost that isn't 1 to 65535, or a priority that isn't 0 to 255",
        4 => "an area is missing, or neither a number nor a dotted quad",
        5 => "this setting isn't modelled, so an answer could be wrong about the network",
        6 => "the interface has a second, different address",
        7 => "network lines of two areas match this interface",
        8 => "the router's name is missing, or has other characters than letters, digits, - _ .",
        10 => "an earlier configuration has the same router name",
        11 => "an earlier interface has the same address",
        12 => "an earlier interface on this subnet has another network kind",
        13 => "this is the third interface on a point-to-point subnet",
        14 => "the router has two interfaces on this subnet",
        15 => "every router on this subnet has priority 0, so none becomes designated",
        16 => "this subnet and that of another router overlap without being equal",
        17 => "more than 1,000 configurations or 4,000 active interfaces",
        _ => return None,
    })
}

/// What the number of a refusal says whose place is a line of the request file.
pub(crate) fn said_of_request(number: u8) -> Option<&'static str>
    ensures { option_copied result ≡ table.saying_of table.request_sayings number }
{
    Some(match number {
        20 => "this is no line of a request, or the header or the area is missing",
        21 => "no configuration has a router of this name",
        22 => "the router has no interface of this name with a neighbour in the area",
        23 => "an interface of the path doesn't lead to the router of the next word",
        24 => "the path comes to a router or a subnet twice",
        25 => "bounds go from a number of 1 or more to one that is no smaller, at most 65535",
        26 => "an interface has no cost, and the request file no default",
        27 => "more than 10,000 paths, or more than 1,000 variables",
        28 => "this interface is on a broadcast subnet, so no link is symmetric there",
        29 => "the ends of the symmetric link aren't both free with the same bounds",
        _ => return None,
    })
}

/// What the number of a refusal says whose place is a line of a text with costs or evidence, of a file of sets or of
/// JSON, or a line whose words behind `without` are refused.
pub(crate) fn said_of_line(number: u8) -> Option<&'static str>
    ensures { option_copied result ≡ table.saying_of table.line_sayings number }
{
    Some(match number {
        30 => "this is no line that may stand here in such a text",
        31 => "the text ends before its `end` line",
        32 => "something stands behind the `end` line",
        70 => "the words behind `without` take the wanted path itself away",
        71 => "this is no line of a file of sets, or its header is missing",
        72 => "a set has numbers of path lines with the same ends, each in one set alone",
        81 => "the file is neither LSAs nor JSON, or nests deeper than 64",
        82 => "a member of this object is missing or off its form",
        _ => return None,
    })
}

/// What the number of a refusal says whose place is a byte of a file of LSAs.
pub(crate) fn said_of_byte(number: u8) -> Option<&'static str>
    ensures { option_copied result ≡ table.saying_of table.byte_sayings number }
{
    Some(match number {
        73 => "the file ends within this LSA",
        74 => "the length of this LSA is below 20",
        75 => "the body of this LSA is off its form",
        76 => "an earlier LSA that counts has the same name and another origin",
        _ => return None,
    })
}

/// What the number of a refusal says whose place is a byte of LSAs, or a line of JSON.
pub(crate) fn said_of_spot(number: u8) -> Option<&'static str>
    ensures { option_copied result ≡ table.saying_of table.spot_sayings number }
{
    Some(match number {
        77 => "a link has metric 0",
        80 => "more than 1,000 router-LSAs count",
        _ => return None,
    })
}

/// What the number of a refusal says whose place is a row of a text with evidence.
pub(crate) fn said_of_row(number: u8) -> Option<&'static str>
    ensures { option_copied result ≡ table.saying_of table.row_sayings number }
{
    Some(match number {
        40 => "its edges aren't a simple path of its request, or there is no such request",
        41 => "it is the wanted path itself, not a rival",
        _ => return None,
    })
}

/// What the number of a refusal says whose place is a line of the tree.
pub(crate) fn said_of_tree_line(number: u8) -> Option<&'static str>
    ensures { option_copied result ≡ table.saying_of table.tree_sayings number }
{
    Some(match number {
        42 => "this tighten, split or halve doesn't follow",
        43 => "this refute doesn't close its box",
        44 => "the proof is left open here",
        48 => "the multipliers of this refute add up to 2^100 or more",
        _ => return None,
    })
}

/// What the number of a refusal says whose place is a variable.
pub(crate) fn said_of_variable(number: u8) -> Option<&'static str>
    ensures { option_copied result ≡ table.saying_of table.cost_sayings number }
{
    Some(match number {
        45 => "its cost is outside its bounds",
        53 => "the two ends of the symmetric link have different costs",
        _ => return None,
    })
}

/// What the number of a refusal says whose place is a wanted path.
pub(crate) fn said_of_path(number: u8) -> Option<&'static str>
    ensures { option_copied result ≡ table.saying_of table.path_sayings number }
{
    Some(match number {
        46 => "it isn't the only cheapest path under these costs",
        _ => return None,
    })
}

/// What the number of a refusal says whose place is a file as a whole.
pub(crate) fn said_of_whole(number: u8) -> Option<&'static str>
    ensures { option_copied result ≡ table.saying_of table.whole_sayings number }
{
    Some(match number {
        9 => "the file is too long",
        47 => "the greatest of the costs isn't the one that the text names",
        49 => "the text claims nothing, or has no costs",
        50 => "the cost lines aren't those of the interfaces that may change",
        51 => "the parts of the text don't fit its verdict",
        52 => "the floor names no variable whose lower bound is the greatest cost",
        54 => "a cost line names an interface that an earlier line names",
        78 => "a configuration has no ospf router-id, or no LSA is of the router asked for",
        79 => "an earlier configuration has the same router ID",
        _ => return None,
    })
}
