//! Products of numbers within 127 bits.
ghost use Rattle.std.specs.Prelude.{◌≡◌, ◌*◌, ◌^◌, ◌<◌, ◌≤◌, nat_abs};
ghost use Rattle.design_problem.specs.Boxes.{upper_term};

/// A coefficient times the end of a range at which that is greatest.
pub(crate) fn greatest_term(coefficient: i128, low: u16, high: u16) -> i128
    requires { nat_abs coefficient * 65535 < 2 ^ 127 }
    ensures value { result ≡ upper_term coefficient low high }
    ensures size { nat_abs result ≤ nat_abs coefficient * 65535 }
{
    if coefficient >= 0 {
        coefficient * i128::from(high)
    } else {
        coefficient * i128::from(low)
    }
}
