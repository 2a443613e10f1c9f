//! Runs the worked cases of the commands, and prints a line for each.
//!
//! Runs in the folder `data`: `cases.txt` names the cases, and `NAME/case.txt` says what a case is. `docs/cases.md` has
//! the form.
#![tactic(auto)]

mod advisors;
mod case;
mod case_file;
mod pieces;
mod play;
mod script;
mod steps;

use crate::case_file::read_case;
use crate::play::play_as;
use crate::script::{play_script, script_of};
use anyhow::{Context, Result, ensure};
use std::rt::Files;
use std::{fs, io};

/// Plays a run of a case, and adds what differs to a text.
fn play_run(
    rt: &(impl Files + AllocGlobal),
    told: &mut String,
    label: &str,
    common: &str,
    own: &str,
) -> Result<()> {
    let mut case = read_case(rt, common, own)?;
    Ok(play_as(rt.alloc(), told, label, &mut case)?)
}

/// Plays the runs of a case, and tells those that differ. What stands before the first line `run LABEL` goes
/// for every run.
///
/// The text is empty where each run comes to what is wanted.
fn play_runs(rt: &(impl Files + AllocGlobal), text: &str) -> Result<String> {
    let mut told = String::new(rt.alloc());
    let Some((common, runs)) = text.split_once("\nrun ") else {
        play_run(rt, &mut told, "the run", text, "")?;
        return Ok(told);
    };
    for run in runs.split("\nrun ") {
        let (label, own) = run.split_once('\n').unwrap_or((run, ""));
        play_run(rt, &mut told, label, common, own)?;
    }
    Ok(told)
}

/// Plays a case: the text is empty where each of its runs comes to what is wanted.
fn play_case(rt: &(impl Files + AllocGlobal), name: &str) -> Result<String> {
    let path = format!(in rt.alloc(); "{name}/case.txt")?;
    let text = fs::read_to_string(rt, path.as_str()).context("reading case.txt")?;
    match script_of(text.as_str()) {
        Some(script) => play_script(rt, script, text.as_str()),
        None => play_runs(rt, text.as_str()),
    }
}

/// Plays a case and prints its line. Whether all went as wanted is the answer.
fn show_case(rt: &(impl Files + AllocGlobal + Print), name: &str) -> io::Result<bool> {
    match play_case(rt, name) {
        Ok(told) if told.is_empty() => {
            println!(rt; "{name}: ok")?;
            Ok(true)
        }
        Ok(told) => {
            println!(rt; "{name}:{told}")?;
            Ok(false)
        }
        Err(error) => {
            println!(rt; "{name}: {error:#}")?;
            Ok(false)
        }
    }
}

fn main(rt: HostRuntime) -> Result<()> {
    let list = fs::read_to_string(&rt, "cases.txt").context("reading cases.txt")?;
    let mut as_wanted = true;
    for name in list.as_str().lines() {
        as_wanted &= show_case(&rt, name)?;
    }
    ensure!(as_wanted, "some cases differ");
    Ok(())
}
