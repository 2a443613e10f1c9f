//! Runs scripts of the parts that know no network: lines, words and numbers, fractions, forms and boxes, covers,
//! commands, made trials, advisors, and what stands for the outside. Each line of standard input, with what is answered
//! to it.
//!
//! `stdin` has the cases, and `stdout` their answers, which were worked out by hand.
#![tactic(auto)]

mod advisors;
mod answer;
mod covers;
mod fractions;
mod jobs;
mod numbers;
mod ranges;
mod shelves;
mod sinks;
mod texts;

use crate::answer::Scene;
use case_scripts::Script;
use std::io;

fn main(rt: HostRuntime) -> io::Result<()> {
    let mut scene = Scene::new(rt);
    scene.play(&rt)
}
