//! What a path pays: its fixed prices, and its variables.
ghost use Rattle.std.specs.Prelude.{◌≡◌, pos, ◌<ℤ◌, ◌++◌, ◌^◌, ◌<◌, length, All, OnOk};
ghost use Rattle.design_problem.specs.Rows.{fixed_price, fixed_cost};
ghost use Rattle.design_problem.specs.Payments.{payment_of, payments_of};

use area_graph::{Graph, Price};
use cost_base::OutOfMemory;

/// A fixed price, and 0 for any other.
fn fixed_part(price: Price) -> u64
    ensures value { result ≡ fixed_price price }
    ensures small { result < 2 ^ 16 }
{
    match price {
        Price::Fixed(cost) => u64::from(cost),
        Price::Var(_) => 0,
        Price::Zero => 0,
    }
}

/// The sum of the fixed prices of a path.
pub(crate) fn fixed_sum(graph: &Graph, path: &[u32]) -> i64
    requires known { All (λ e. e < length graph.now.edges) path.now }
    requires short { length path.now < 2 ^ 32 }
    ensures sum { result ≡ pos (fixed_cost graph.now path.now) }
    ensures small { result <ℤ pos (2 ^ 48) }
{
    let edges = graph.edges();
    let mut sum = 0u64;
    for e in path {
        sum += fixed_part(edges[*e as usize].price);
    }
    sum as i64
}

/// A variable that one of two paths pays: the rival, or the wanted path.
#[derive(Clone, Copy)]
pub(crate) struct Payment {
    pub(crate) var: u32,
    pub(crate) by_rival: bool,
}

/// Puts the payment of a price at the end, where the price is a variable's.
fn note_price(payments: &mut Vec<Payment>, price: Price, by_rival: bool) -> Result<(), OutOfMemory>
    ensures { OnOk result (payments.new.items ≡ payments.old.items ++ payment_of by_rival price) }
{
    if let Price::Var(var) = price {
        payments.push(Payment { var, by_rival })?;
    }
    Ok(())
}

/// Puts the payments of a path at the end: one for each of its edges whose price is a variable's.
pub(crate) fn note_path(
    payments: &mut Vec<Payment>,
    graph: &Graph,
    path: &[u32],
    by_rival: bool,
) -> Result<(), OutOfMemory>
    requires { All (λ e. e < length graph.now.edges) path.now }
    ensures { OnOk result (payments.new.items ≡ payments.old.items ++
        payments_of graph.now by_rival path.now) }
{
    let edges = graph.edges();
    for e in path {
        note_price(payments, edges[*e as usize].price, by_rival)?;
    }
    Ok(())
}
