//! Runs scripts of texts: configurations, request files, and the networks and problems that they make. Each line of
//! standard input, with what is answered to it.
//!
//! `text NAME` begins a text, and `| LINE` adds a line to it. `stdin` has the cases, and `stdout` their answers, which
//! were worked out by hand.
#![tactic(auto)]

mod answer;
mod beside;
mod configs;
mod networks;
mod problems;
mod requests;

use crate::answer::Scene;
use case_scripts::Script;
use std::io;

fn main(rt: HostRuntime) -> io::Result<()> {
    let mut scene = Scene::new(rt.alloc());
    scene.play(&rt)
}
