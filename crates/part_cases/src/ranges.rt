//! What a form answers over a box, and a box that is cut in two parts.
ghost use Rattle.std.specs.Prelude.{◌≡◌, ◌^◌, ◌≤◌, nat_abs, All, IsTrue, length};

use bound_propagation::tighten;
use case_scripts::{Terms, Written, list_of, next_number, next_word};
use cost_base::Listed;
use design_problem::{CostBox, Form, OpenBoxes, greatest_over};
use std::alloc::{AllocError, Global};
use std::str::SplitWhitespace;

/// The box of the words `LOW,LOW.. HIGH,HIGH..`.
fn next_box(alloc: Global, words: &mut SplitWhitespace<'_>) -> Result<CostBox, AllocError> {
    let low = list_of::<u16>(alloc, next_word(words))?;
    let high = list_of::<u16>(alloc, next_word(words))?;
    Ok(CostBox {
        low: Listed::from_items(low),
        high: Listed::from_items(high),
    })
}

/// Whether the size of each coefficient is at most 2^26.
fn are_small(coefficients: &[i64]) -> bool
    ensures { IsTrue result → All (λ c. nat_abs c ≤ 2 ^ 26) coefficients.now }
{
    coefficients
        .iter()
        .all(|coefficient| coefficient.unsigned_abs() <= 1 << 26)
}

/// What a form answers over a box.
fn form_text(alloc: Global, form: &Form, costs: &CostBox) -> Result<String, AllocError>
    requires low { length form.now.coefficients ≡ length costs.now.low }
    requires high { length form.now.coefficients ≡ length costs.now.high }
    requires sizes { All (λ c. nat_abs c ≤ 2 ^ 26) form.now.coefficients }
{
    let terms = Terms(form);
    let greatest = greatest_over(form, costs);
    if greatest < 0 {
        return format!(in alloc; ": {terms}; greatest {greatest}");
    }
    format!(in alloc;
        ": {terms}; greatest {greatest}; {:?}",
        tighten(form, costs)
    )
}

/// What the form of these numbers answers over a box.
fn numbers_text(alloc: Global, numbers: &[i64], costs: &CostBox) -> Result<String, AllocError> {
    let Some((constant, coefficients)) = numbers.split_first() else {
        return String::from_str(alloc, ": no form");
    };
    let count = coefficients.len();
    if count != costs.low.as_slice().len() || count != costs.high.as_slice().len() {
        return String::from_str(alloc, ": unfit");
    }
    if count > 1 << 20 || !are_small(coefficients) {
        return String::from_str(alloc, ": unfit");
    }
    let Ok(form) = Form::from_coefficients(alloc, *constant, coefficients) else {
        return Err(AllocError);
    };
    form_text(alloc, &form, costs)
}

/// `over CONSTANT,COEFFICIENT.. LOWS HIGHS`: the terms of a form, its greatest value over a box, and the first range
/// that it makes smaller.
pub(crate) fn over_text(alloc: Global, rest: &str) -> Result<String, AllocError> {
    let mut words = rest.split_whitespace();
    let numbers = list_of::<i64>(alloc, next_word(&mut words))?;
    let costs = next_box(alloc, &mut words)?;
    numbers_text(alloc, numbers.as_slice(), &costs)
}

/// A box as it is written: its lower bounds, and its upper ones.
fn box_text(alloc: Global, costs: &CostBox) -> Result<String, AllocError> {
    let low = Written(costs.low.as_slice());
    let high = Written(costs.high.as_slice());
    format!(in alloc; " {low} to {high};")
}

/// The parts of a box that is cut, where it can be.
fn parts_text(
    alloc: Global,
    boxes: &mut OpenBoxes,
    var: u32,
    value: u16,
) -> Result<String, AllocError> {
    if boxes.present().low.as_slice().len() <= var as usize {
        return String::from_str(alloc, ": unfit");
    }
    if boxes.present().high.as_slice()[var as usize] <= value {
        return String::from_str(alloc, ": unfit");
    }
    if boxes.cut(var, value).is_err() {
        return Err(AllocError);
    }
    let first = box_text(alloc, boxes.present())?;
    let is_second = boxes.close();
    let second = box_text(alloc, boxes.present())?;
    let is_third = boxes.close();
    format!(in alloc; ":{first}{second} {is_second} {is_third}")
}

/// `cut VAR VALUE LOWS HIGHS`: the first part of a box that is cut, then the second one, and whether a third one waits.
pub(crate) fn cut_text(alloc: Global, rest: &str) -> Result<String, AllocError> {
    let mut words = rest.split_whitespace();
    let var = next_number(&mut words);
    let value = u16::try_from(next_number(&mut words)).unwrap_or(0);
    let costs = next_box(alloc, &mut words)?;
    if costs.low.as_slice().len() != costs.high.as_slice().len() {
        return String::from_str(alloc, ": unfit");
    }
    let mut boxes = OpenBoxes::new(alloc, costs);
    parts_text(alloc, &mut boxes, var, value)
}
