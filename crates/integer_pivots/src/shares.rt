//! Denominators of lines beside a common multiple of them: how often they go into it, and constants over it.
ghost use Rattle.std.specs.Prelude.{◌≡◌, ◌*◌, ◌/◌, ◌^◌, ◌≤◌, ◌↔◌, pos, ◌*ℤ◌, ◌<ℤ◌, ◌≤ℤ◌, nat_abs, IsTrue};
ghost use Prim.Native.Nat.{◌∣◌};

use crate::bounds::CONSTANT_LIMIT;

/// A denominator times a multiplier.
pub fn denominator_times(denominator: i64, multiplier: i64) -> i64
    requires denominator { (pos 0 <ℤ denominator) × (denominator ≤ℤ pos (2 ^ 30)) }
    requires multiplier { (pos 0 <ℤ multiplier) × (multiplier ≤ℤ pos (2 ^ 30)) }
    ensures product { nat_abs result ≡ nat_abs denominator * nat_abs multiplier }
    ensures range { (pos 0 <ℤ result) × (result ≤ℤ pos (2 ^ 60)) }
{
    denominator * multiplier
}

/// How often a denominator goes into a common multiple.
pub fn share_in(common: i64, denominator: i64) -> i64
    // The denominator goes into the common one, which is at most 2^30.
    requires common { (pos 0 <ℤ common) × (common ≤ℤ pos (2 ^ 30)) }
    requires denominator { pos 0 <ℤ denominator }
    requires divides { nat_abs denominator ∣ nat_abs common }

    // The share is their exact quotient, from 1 to 2^30.
    ensures share { result ≡ pos (nat_abs common / nat_abs denominator) }
    ensures times { (result *ℤ denominator) ≡ common }
    ensures positive { pos 1 ≤ℤ result }
    ensures size { result ≤ℤ pos (2 ^ 30) }
{
    if common == 1 {
        return 1;
    }
    common / denominator
}

/// Whether a constant, times how often its denominator goes into the common one, is within the limit.
pub fn stays_within(constant: i128, share: i64) -> bool
    requires share { (pos 0 <ℤ share) × (share ≤ℤ pos (2 ^ 30)) }
    ensures { IsTrue result ↔ (nat_abs constant * nat_abs share ≤ 2 ^ 44) }
{
    let size = constant.unsigned_abs();
    if size > CONSTANT_LIMIT as u128 {
        return false;
    }
    size * u128::from(share.unsigned_abs()) <= CONSTANT_LIMIT as u128
}
