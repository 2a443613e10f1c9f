//! Products of numbers within 127 bits.
ghost use Rattle.std.specs.Prelude.{◌≡◌, ◌+◌, ◌*◌, ◌^◌, ◌<◌, pos, ◌+ℤ◌, ◌*ℤ◌, nat_abs};

/// A sum, and a product with a multiplier.
pub(crate) fn plus_product(sum: i128, multiplier: u128, factor: i64) -> i128
    requires multiplier { multiplier < 2 ^ 100 }
    requires size { nat_abs sum + multiplier * nat_abs factor < 2 ^ 127 }
    ensures { result ≡ (sum +ℤ (pos multiplier *ℤ factor)) }
{
    sum + multiplier as i128 * i128::from(factor)
}
