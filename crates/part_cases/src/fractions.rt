//! Lines of a script that ask of fractions.
ghost use Rattle.std.specs.Prelude.{IfSome};
ghost use Rattle.wide_fraction.specs.Widths.{IsWithin};

use case_scripts::{next_number, next_word};
use std::alloc::{AllocError, Global};
use std::str::SplitWhitespace;
use wide_fraction::{Frac, Limits, Top, add, cmp, div, floor, lcm, mul, scale, sub};

/// The fraction of a word `NUMERATOR/DENOMINATOR`; none where it isn't within the width.
fn fraction(word: &str, top: Top) -> Option<Frac>
    ensures { IfSome result (λ q. IsWithin top q) }
{
    let (numerator, denominator) = word.split_once('/')?;
    let numerator = numerator.parse::<i128>().ok()?;
    let denominator = denominator.parse::<i128>().ok()?;
    if numerator == i128::MIN || denominator <= 0 {
        return None;
    }
    Frac::new(numerator, denominator, top)
}

/// A step of two fractions.
fn step_text(
    alloc: Global,
    step: &str,
    left: Frac,
    right: Frac,
    top: Top,
) -> Result<String, AllocError>
    requires left { IsWithin top left }
    requires right { IsWithin top right }
{
    match step {
        "add" => format!(in alloc; ": {:?}", add(left, right, top)),
        "sub" => format!(in alloc; ": {:?}", sub(left, right, top)),
        "mul" => format!(in alloc; ": {:?}", mul(left, right, top)),
        "div" if !right.is_zero() => format!(in alloc; ": {:?}", div(left, right, top)),
        "cmp" => format!(in alloc; ": {:?}", cmp(left, right)),
        _ => format!(in alloc; ": {}", floor(left)),
    }
}

/// A step of the fractions of two words.
fn fractions_text(
    alloc: Global,
    step: &str,
    words: &mut SplitWhitespace<'_>,
    top: Top,
) -> Result<String, AllocError> {
    let left = fraction(next_word(words), top);
    let right = fraction(next_word(words), top);
    let (Some(left), Some(right)) = (left, right) else {
        return String::from_str(alloc, ": no fractions");
    };
    step_text(alloc, step, left, right, top)
}

/// A whole number of a script, or 0.
fn whole(words: &mut SplitWhitespace<'_>) -> i128 {
    next_word(words).parse::<i128>().unwrap_or(0)
}

/// `lcm NUMBER NUMBER`: the least common multiple.
fn lcm_text(alloc: Global, left: i128, right: i128, top: Top) -> Result<String, AllocError> {
    let most = top.value();
    if left <= 0 || right <= 0 || most < left || most < right {
        return String::from_str(alloc, ": unfit");
    }
    format!(in alloc; ": {:?}", lcm(left, right, top))
}

/// `scale NUMBER`: a number times 2^27.
fn scale_text(alloc: Global, value: i128, top: Top) -> Result<String, AllocError> {
    if value <= 0 || top.value() < value {
        return String::from_str(alloc, ": unfit");
    }
    format!(in alloc; ": {:?}", scale(value, top))
}

/// `whole NUMBER`: a whole number as a fraction, its sign, and it turned round.
fn whole_text(alloc: Global, value: i64) -> Result<String, AllocError> {
    let whole = Frac::whole(value);
    let negated = whole.negated().numerator();
    let positive = if whole.is_positive() {
        ", positive"
    } else {
        ""
    };
    let negative = if whole.is_negative() {
        ", negative"
    } else {
        ""
    };
    let numerator = whole.numerator();
    let denominator = whole.denominator();
    if whole.is_zero() {
        return format!(in alloc;
            ": {numerator}/{denominator}, negated {negated}{positive}{negative}, zero"
        );
    }
    let inverted = whole.inverted();
    format!(in alloc;
        ": {numerator}/{denominator}, negated {negated}{positive}{negative}, inverted {}/{}",
        inverted.numerator(),
        inverted.denominator()
    )
}

/// What a step makes of the words behind it, within a width.
fn step_of_words(
    alloc: Global,
    step: &str,
    words: &mut SplitWhitespace<'_>,
    top: Top,
) -> Result<String, AllocError> {
    match step {
        "lcm" => {
            let left = whole(words);
            lcm_text(alloc, left, whole(words), top)
        }
        "scale" => scale_text(alloc, whole(words), top),
        "whole" => whole_text(alloc, next_word(words).parse::<i64>().unwrap_or(0)),
        _ => fractions_text(alloc, step, words, top),
    }
}

/// What is answered to a line `at BITS STEP ..`: what a step makes of fractions or whole numbers within a width.
pub(crate) fn fraction_text(alloc: Global, rest: &str) -> Result<String, AllocError> {
    let mut words = rest.split_whitespace();
    let bits = next_number(&mut words);
    let Some(top) = Top::new(bits) else {
        return String::from_str(alloc, ": no width");
    };
    match next_word(&mut words) {
        "width" => format!(in alloc; ": {}", top.value()),
        "nodes" => {
            let nodes = next_number(&mut words);
            format!(in alloc; ": {}", Limits::new(u64::from(nodes), top).is_some())
        }
        step => step_of_words(alloc, step, &mut words, top),
    }
}
