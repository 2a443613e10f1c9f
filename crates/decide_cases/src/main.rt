//! Runs scripts of problems: each line of standard input, with what is answered to it. `stdin` has the cases, and
//! `stdout` their answers, which were worked out by hand in the stated order of steps.
#![tactic(auto)]

mod advisors;
mod answer;
mod command;
mod conditions;
mod deciding;
mod draft;
mod problem_text;
mod stop;

use crate::answer::Scene;
use case_scripts::Script;
use std::io;

fn main(rt: HostRuntime) -> io::Result<()> {
    let mut scene = Scene::new(rt.alloc());
    scene.play(&rt)
}
