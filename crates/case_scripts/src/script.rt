//! A script that is played: each line of standard input, with what is answered to it.

use std::alloc::Global;
use std::io;

/// What a script has come to, which answers the script's next line.
pub trait Script {
    /// What is answered to a line, to stand behind it.
    ///
    /// # Errors
    ///
    /// That no memory is left.
    fn answer(&mut self, alloc: Global, line: &str) -> io::Result<String>;

    /// Plays each line of standard input: writes it, and behind it what is answered.
    ///
    /// # Errors
    ///
    /// The first failure to read, to answer or to write a line.
    fn play(&mut self, rt: &HostRuntime) -> io::Result<()> {
        let alloc = rt.alloc();
        for line in rt.lines(alloc) {
            let line = line?;
            let answer = self.answer(alloc, line.as_str())?;
            println!(rt; "{line}{answer}")?;
        }
        Ok(())
    }
}
