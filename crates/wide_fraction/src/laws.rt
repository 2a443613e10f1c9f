//! The law of quotients: the contract of a function that does nothing.
ghost use Rattle.wide_fraction.specs.Laws.{QuotientsAreExact};

/// A quotient by a fraction that isn't 0, above or below 0, stands for the quotient of the numbers that the two stand
/// for, with the sign in the numerator.
pub fn quotients_are_exact()
    ensures { QuotientsAreExact }
{}
