//! An advisor that tells how far a search is.
ghost use Rattle.std.specs.Prelude.{◌≡◌, IfSome};

use crate::{Advisor, Candidate};
use design_problem::Entry;
use std::io::Eprint;
use std::time::{Clock, Instant};

/// Picks the first candidate, and writes a line to standard error now and then: the seconds since it began, and the
/// entries that it was told of.
///
/// It is told of entries and of nothing else, so these are the entries of all caps so far: at which cap a search stands
/// it can't know. What it picks doesn't hang on what it wrote, nor on the clock. It has no state.
#[derive(Drop)]
pub struct Progress<R> {
    runtime: R,
    /// How many entries a tree may have.
    budget: u64,
    /// The least number of seconds between two lines.
    pause: u64,
    begun: Instant,
    /// The seconds after which the next line is due.
    due: u64,
    entries: u64,
}

impl<R: Clock + Eprint + Drop> Progress<R> {
    /// Begins now. The first line comes after `pause` seconds, and each further one at least so long after the one
    /// before it; `budget` is how many entries a tree may have. None where the clock can't be read.
    pub fn begin(runtime: R, budget: u64, pause: u64) -> Option<Progress<R>>
        ensures told { IfSome result (λ begun. begun.entries ≡ 0) }
        ensures due { IfSome result (λ begun. (begun.due ≡ pause) × (begun.pause ≡ pause)) }
        ensures budget { IfSome result (λ begun. begun.budget ≡ budget) }
    {
        let begun = Instant::now(&runtime).ok()?;
        Some(Progress {
            runtime,
            budget,
            pause,
            begun,
            due: pause,
            entries: 0,
        })
    }

    /// Writes a line where one is due. A clock that can't be read, or a line that can't be written, changes nothing.
    fn tell(&mut self) {
        let Ok(elapsed) = self.begun.elapsed(&self.runtime) else {
            return;
        };
        let seconds = elapsed.as_secs();
        if seconds < self.due {
            return;
        }
        self.due = seconds.saturating_add(self.pause);
        let _written = eprintln!(self.runtime;
            "ospfcost: {seconds} s, {} entries so far (a cap may take {})",
            self.entries, self.budget
        );
    }
}

impl<R: Clock + Eprint + Drop> Advisor for Progress<R> {
    ghost use Rattle.std.specs.Prelude.{[]};

    ghost state = { λ _. [] };

    ghost would = { λ _ _. 0 };

    ghost left = { λ _ _. [] };

    ghost after = { λ _ _. [] };

    fn pick(&mut self, _candidates: &[Candidate]) -> u32 {
        0
    }

    fn told(&mut self, _entry: &Entry) {
        self.entries = self.entries.saturating_add(1);
        self.tell();
    }
}

#[cfg(test)]
mod tests {
    use super::Progress;
    use crate::Advisor;
    use design_problem::Entry;
    use std::cell::Cell;
    use std::fmt::Display;
    use std::io::{self, Eprint};
    use std::time::{Clock, Duration};

    /// A clock that goes on by a second at each reading, and a standard error that counts its lines. It has no standard
    /// output.
    #[derive(Drop)]
    struct Counting {
        seconds: Cell<u64>,
        lines: Cell<u64>,
    }

    impl Clock for Counting {
        fn monotonic(&self) -> io::Result<Duration> {
            let seconds = self.seconds.get();
            self.seconds.set(seconds.saturating_add(1));
            Ok(Duration::from_secs(seconds))
        }

        fn since_1970(&self) -> io::Result<Duration> {
            self.monotonic()
        }
    }

    impl Eprint for Counting {
        fn eprint<D: Display + Drop>(&self, _value: D) -> io::Result<()> {
            Ok(())
        }

        fn eprintln<D: Display + Drop>(&self, _value: D) -> io::Result<()> {
            self.lines.set(self.lines.get().saturating_add(1));
            Ok(())
        }
    }

    #[test]
    fn a_line_comes_after_each_pause(rt: HostRuntime) {
        let runtime = Counting {
            seconds: Cell::new(0),
            lines: Cell::new(0),
        };
        let begun = Progress::begin(runtime, 100, 3);
        let mut progress = begun.expect(&rt, "the clock can be read");
        for _ in 0..8 {
            progress.told(&Entry::Undone);
        }
        assert_eq!(rt; progress.runtime.lines.get(), 2);
        assert_eq!(rt; progress.pick(&[]), 0);
    }
}
