//! Runs scripts of tableaus and searches: each line of standard input, with what is answered to it. `stdin` has the
//! cases, and `stdout` their answers, which a plain program found that follows the stated order of steps.
#![tactic(auto)]

mod advisors;
mod answer;
mod command;
mod scene;
mod search;
mod source;
mod words;

use crate::answer::SceneAtHand;
use case_scripts::Script;
use std::io;

fn main(rt: HostRuntime) -> io::Result<()> {
    let mut scene = SceneAtHand::new();
    scene.play(&rt)
}
