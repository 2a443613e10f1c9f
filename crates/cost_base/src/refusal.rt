//! Why what was handed in isn't taken.
ghost use Rattle.std.specs.Prelude.{◌≡◌, ℕ};
ghost use Rattle.cost_base.specs.Refusals.{MatchRefusal, OnRefused};

use crate::OutOfMemory;
use std::alloc::AllocFailed;
use std::error::Error;
use std::fmt;

/// A fault that a refusal names by its number. To contracts it is `numbered`.
pub trait Fault: Copy {
    ghost numbered: { Self → ℕ };

    /// The number by which the fault is written.
    fn number(self) -> u8
        ensures { result ≡ numbered self };
}

/// Why what was handed in isn't taken: its first fault and the place where it stands, or want of memory. The place is
/// mostly a line, counted from 1.
#[derive(Clone, Copy, Debug, PartialEq, Eq)]
pub enum Refusal<F, P = u32> {
    /// The first fault, and where it stands.
    Refused { fault: F, place: P },
    /// There was no memory. It says nothing of what was handed in.
    OutOfMemory,
}

impl<F, P> Refusal<F, P> {
    /// The refusal of what has its first fault at a place.
    pub fn at(place: P, fault: F) -> Refusal<F, P>
        ensures { result ≡ Refusal.Refused fault place }
    {
        Refusal::Refused { fault, place }
    }

    /// The refusal for another fault at another place, which are told by these. Want of memory stays.
    pub fn and_then<G, Q, N: FnOnce(F, P) -> Refusal<G, Q>>(self, told: N) -> Refusal<G, Q>
        requires { OnRefused self (N.pre told) }
        ensures { MatchRefusal self (λ fault place. N.post told fault place result)
            (result ≡ Refusal.OutOfMemory) }
    {
        match self {
            Refusal::Refused { fault, place } => told(fault, place),
            Refusal::OutOfMemory => Refusal::OutOfMemory,
        }
    }
}

impl<F, P> From<OutOfMemory> for Refusal<F, P> {
    ghost use Rattle.std.specs.Prelude.{◌≡◌};
    ghost use Rattle.cost_base.specs.declared.refusal.Refusal.TheVariants.{OutOfMemory as NoMemory};

    ghost from_gives = { λ _ refusal. refusal ≡ NoMemory };

    fn from(_error: OutOfMemory) -> Refusal<F, P> {
        Refusal::OutOfMemory
    }
}

impl<F, P, T: Drop> From<AllocFailed<T>> for Refusal<F, P> {
    ghost use Rattle.std.specs.Prelude.{◌≡◌};
    ghost use Rattle.cost_base.specs.declared.refusal.Refusal.TheVariants.{OutOfMemory as NoMemory};

    ghost from_gives = { λ _ refusal. refusal ≡ NoMemory };

    fn from(_error: AllocFailed<T>) -> Refusal<F, P> {
        Refusal::OutOfMemory
    }
}

impl<F: Fault, P: fmt::Display> fmt::Display for Refusal<F, P> {
    fn fmt<W: fmt::Write>(&self, f: &mut fmt::Formatter<W>) -> fmt::Result {
        match self {
            Refusal::Refused { fault, place } => write!(f, "refused {} {place}", fault.number()),
            Refusal::OutOfMemory => write!(f, "out of memory"),
        }
    }
}

impl<F: Fault + fmt::Debug, P: fmt::Display + fmt::Debug + Drop> Error for Refusal<F, P> {}
