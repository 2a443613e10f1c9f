//! Runs scripts of small networks: each line of standard input, with what is answered to it.
//!
//! `stdin` has the cases, and `stdout` their answers, which were found outside, by going through every simple path.
#![tactic(auto)]

mod answer;
mod networks;
mod outsiders;
mod paths;
mod rivals;
mod searches;

use crate::answer::Scene;
use case_scripts::Script;
use std::io;

fn main(rt: HostRuntime) -> io::Result<()> {
    let mut scene = Scene::new();
    scene.play(&rt)
}
