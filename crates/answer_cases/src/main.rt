//! Runs scripts of answers' texts: whole texts that are read and put, lines that are read one by one, and lines that
//! are begun. Each line of standard input, with what is answered to it.
//!
//! `text NAME` begins a text, and `| LINE` adds a line to it. `stdin` has the cases, and `stdout` their answers, which
//! were worked out by hand.
#![tactic(auto)]

mod answer;
mod begun;
mod lines;
mod texts;

use crate::answer::Scene;
use case_scripts::Script;
use std::io;

fn main(rt: HostRuntime) -> io::Result<()> {
    let mut scene = Scene::new(rt.alloc());
    scene.play(&rt)
}
