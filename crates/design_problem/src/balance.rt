//! How much more often variables are paid by a rival than by the wanted path.
ghost use Rattle.std.specs.Prelude.{◌≡◌, ℕ, pos, nat_abs, ◌+ℤ◌, ◌^◌, ◌<◌, length, All, IfOk};
ghost use Rattle.std.specs.List.Sorted.{IsNonDecreasingBy};
ghost use Rattle.design_problem.specs.Forms.{AreTerms, coefficient_of};
ghost use Rattle.design_problem.specs.Payments.{IsTurnedTo, balance_of, one_payment};

use crate::Term;
use crate::form::push_term;
use crate::payments::Payment;
use cost_base::OutOfMemory;
use std::alloc::Global;

/// How much more often a variable is paid by the rival than by the wanted path, by the payments that were counted.
#[derive(Clone, Copy)]
struct Balance {
    var: u32,
    sum: i64,
}

/// Where the next payment is of another variable, puts the term of the last one at the end, and begins a balance anew.
fn turn(terms: &mut Vec<Term>, balance: Balance, var: u32) -> Result<Balance, OutOfMemory>
    ensures { IfOk result (IsTurnedTo balance var terms.old.items terms.new.items) }
{
    if balance.var == var {
        return Ok(balance);
    }
    push_term(terms, balance.var, balance.sum)?;
    Ok(Balance { var, sum: 0 })
}

/// The balance with one more payment of its variable.
fn with_payment(balance: Balance, by_rival: bool) -> Balance
    requires { nat_abs balance.sum < 2 ^ 34 }
    ensures var { result.var ≡ balance.var }
    ensures sum { result.sum ≡ (balance.sum +ℤ one_payment by_rival) }
{
    let one = if by_rival { 1 } else { -1 };
    Balance {
        var: balance.var,
        sum: balance.sum + one,
    }
}

/// The terms of payments that stand in the order of their variables: for each variable how much more often the rival
/// pays it, where that isn't 0.
pub(crate) fn terms_of_payments(
    alloc: Global,
    variables: usize,
    payments: &[Payment],
) -> Result<Vec<Term>, OutOfMemory>
    requires known { All (λ p. p.var < variables) payments.now }
    requires rising { IsNonDecreasingBy (λ p. p.var) payments.now }
    requires short { length payments.now < 2 ^ 33 }
    ensures terms { IfOk result (λ terms. AreTerms variables terms.items) }
    ensures balances { IfOk result (λ terms. (v : ℕ) → coefficient_of terms.items v ≡
        balance_of payments.now v) }
{
    let mut terms = Vec::new(alloc);
    let mut balance = Balance { var: 0, sum: 0 };
    for payment in payments {
        let turned = turn(&mut terms, balance, payment.var)?;
        balance = with_payment(turned, payment.by_rival);
    }
    push_term(&mut terms, balance.var, balance.sum)?;
    Ok(terms)
}
