//! Whether bytes begin a lawful line at a place.
ghost use Rattle.std.specs.Prelude.{◌≡◌, ◌⊎◌, ℕ, zero, suc, List, IsTrue, ◌↔◌, Option, None, codes};
ghost use Rattle.std.specs.Option.{option_copied};
ghost use Rattle.answer_lines.specs.Grammar.{AtHead, AtVerdict, AtCosts, AtSections, AtInterface, AtCost, AtExit, AtFloor, AtRows, AtRow, AtTree, AtEnd, AtInnerHead};
ghost use Rattle.answer_lines.specs.Places.{BeginsLawful};
ghost use Rattle.answer_lines.specs.declared.other_text.OtherText.{OtherText};
ghost use Rattle.begun_lines.specs.Begun.{IsLineFront, BeginsNumber, BeginsTree, BeginsCount, BeginsRouter, BeginsAgain, BeginsNextCost, IsRouterOf};

use crate::fronts::{begins_line, begins_name, begins_number};
use answer_lines::{LONGEST, after};
use evidence_text::TreePart;
use text_lines::{cut, printed_number};

/// Whether these bytes begin the first line of an answer, also of one inside another text.
pub fn begins_head(rest: &[u8]) -> bool
    ensures own { IsTrue result ↔ BeginsLawful AtHead rest.now }
    ensures inner { IsTrue result ↔ BeginsLawful AtInnerHead rest.now }
{
    begins_line(rest, b"ospfcost answer 1")
}

/// Whether these bytes begin the line of a verdict.
pub fn begins_verdict(rest: &[u8]) -> bool
    ensures { IsTrue result ↔ BeginsLawful AtVerdict rest.now }
{
    begins_decided(rest) || begins_number(rest, b"verdict undecided budget ", 65_535)
}

/// Whether these bytes begin the line of a verdict that decides.
fn begins_decided(rest: &[u8]) -> bool
    ensures { IsTrue result ↔ (IsLineFront rest.now (codes "verdict impossible") ⊎
        BeginsNumber rest.now (codes "verdict optimal ") 65535) }
{
    begins_line(rest, b"verdict impossible") || begins_number(rest, b"verdict optimal ", 65_535)
}

/// Whether these bytes begin the line of the greatest cost.
pub fn begins_costs(rest: &[u8]) -> bool
    ensures { IsTrue result ↔ BeginsLawful AtCosts rest.now }
{
    begins_line(rest, b"costs none") || begins_number(rest, b"costs ", 65_535)
}

/// Whether these bytes begin a line among the sections, `before` being the router of the cost line before.
pub fn begins_section(rest: &[u8], before: Option<&[u8]>) -> bool
    ensures { IsTrue result ↔ BeginsLawful (AtSections None (option_copied before.entry)) rest.now }
{
    begins_next_cost(rest, before) || begins_floor(rest)
}

/// Whether these bytes begin a line of one more cost: that of another router, or of one more interface of the same.
pub(crate) fn begins_next_cost(rest: &[u8], before: Option<&[u8]>) -> bool
    ensures { (text : Option OtherText) →
        (IsTrue result ↔ BeginsNextCost text (option_copied before.entry) rest.now) }
{
    begins_router(rest, before) || begins_interface_again(rest, before)
}

/// Whether these bytes begin the line of a router that isn't `before`.
fn begins_router(rest: &[u8], before: Option<&[u8]>) -> bool
    ensures { IsTrue result ↔ BeginsRouter (option_copied before.entry) rest.now }
{
    begins_name(rest, b"router ") && (rest.len() < LONGEST || !is_router_line(rest, before))
}

/// Whether a line is that of this router.
fn is_router_line(line: &[u8], router: Option<&[u8]>) -> bool
    ensures { IsTrue result ↔ IsRouterOf (option_copied router.entry) line.now }
{
    let Some(router) = router else {
        return false;
    };
    let Some(name) = after(line, b"router ") else {
        return false;
    };
    name == router
}

/// Whether these bytes begin the line of a further interface, which stands only behind a cost line.
fn begins_interface_again(rest: &[u8], before: Option<&[u8]>) -> bool
    ensures { (text : Option OtherText) →
        (IsTrue result ↔ BeginsAgain text (option_copied before.entry) rest.now) }
{
    match before {
        Some(_) => begins_interface(rest),
        None => false,
    }
}

/// Whether these bytes begin the line of an interface.
pub fn begins_interface(rest: &[u8]) -> bool
    ensures { (text : Option OtherText) (router : List ℕ) →
        (IsTrue result ↔ BeginsLawful (AtInterface text router) rest.now) }
{
    begins_name(rest, b"interface ")
}

/// Whether these bytes begin the line of an interface's cost.
pub fn begins_cost(rest: &[u8]) -> bool
    ensures { (text : Option OtherText) (router : List ℕ) →
        (IsTrue result ↔ BeginsLawful (AtCost text router) rest.now) }
{
    begins_number(rest, b" ip ospf cost ", 65_535) && rest != b" ip ospf cost 0".as_slice()
}

/// Whether these bytes begin the line that ends an interface.
pub fn begins_exit(rest: &[u8]) -> bool
    ensures { (text : Option OtherText) (router : List ℕ) →
        (IsTrue result ↔ BeginsLawful (AtExit text router) rest.now) }
{
    begins_line(rest, b"exit")
}

/// Whether these bytes begin the line of a floor.
pub fn begins_floor(rest: &[u8]) -> bool
    ensures { IsTrue result ↔ BeginsLawful AtFloor rest.now }
{
    begins_line(rest, b"floor none")
        || begins_line(rest, b"floor empty")
        || begins_number(rest, b"floor ", 4_294_967_295)
}

/// Whether these bytes begin the line of how many rows there are.
pub fn begins_rows(rest: &[u8]) -> bool
    ensures { IsTrue result ↔ BeginsLawful AtRows rest.now }
{
    begins_number(rest, b"rows ", 18_446_744_073_709_551_615)
}

/// Whether these bytes begin the head of the proof.
pub fn begins_proof(rest: &[u8]) -> bool
    ensures { IsTrue result ↔ BeginsLawful (AtRow zero) rest.now }
{
    rest.len() <= LONGEST && (begins_line(rest, b"proof none") || begins_tree(rest, b"proof "))
}

/// Whether these bytes begin the head of the undecided tree.
pub fn begins_open(rest: &[u8]) -> bool
    ensures { IsTrue result ↔ BeginsLawful (AtTree TreePart.Proof zero zero) rest.now }
{
    rest.len() <= LONGEST && (begins_line(rest, b"open none") || begins_tree(rest, b"open "))
}

/// Whether these bytes begin the head of a tree, which has this front.
fn begins_tree(rest: &[u8], front: &[u8]) -> bool
    ensures { IsTrue result ↔ BeginsTree rest.now front.now }
{
    begins_number(rest, front, 65_535) || begins_count(rest, front)
}

/// Whether these bytes hold the cap of a tree, and a space behind it.
fn begins_count(rest: &[u8], front: &[u8]) -> bool
    ensures { IsTrue result ↔ BeginsCount rest.now front.now }
{
    let Some(numbers) = after(rest, front) else {
        return false;
    };
    let Some((cap, count)) = cut(numbers, b' ') else {
        return false;
    };
    printed_number(cap, 65_535).is_some() && begins_number(count, b"", 4_294_967_295)
}

/// Whether these bytes begin the line of the wide part.
pub fn begins_wide(rest: &[u8]) -> bool
    ensures { IsTrue result ↔ BeginsLawful (AtTree TreePart.Undecided zero zero) rest.now }
{
    begins_line(rest, b"wide none")
}

/// Whether these bytes begin the last line.
pub fn begins_end(rest: &[u8]) -> bool
    ensures { IsTrue result ↔ BeginsLawful AtEnd rest.now }
{
    begins_line(rest, b"end")
}
