//! What is answered to a line of a script.

use crate::command::{Command, read_command};
use crate::conditions::{are_below, are_members};
use crate::deciding::{decide_text, least_text, told_text};
use crate::draft::Draft;
use crate::problem_text::{box_text, problem_text};
use crate::stop::Stop;
use case_scripts::Script;
use cost_base::OutOfMemory;
use design_problem::{Problem, box_at};
use std::alloc::{AllocError, Global};
use std::{io, mem};

/// What a script has come to: what was said of a problem, and the problem at hand.
#[derive(Drop)]
pub struct Scene {
    draft: Draft,
    problem: Option<Problem>,
}

impl Scene {
    /// Nothing was said, and no problem is at hand.
    pub(crate) fn new(alloc: Global) -> Scene {
        Scene {
            draft: Draft::new(alloc),
            problem: None,
        }
    }

    /// Another network is said.
    fn begin(&mut self, alloc: Global, routers: u32, subnets: u32) -> Result<(), OutOfMemory> {
        self.draft = Draft::of_network(alloc, routers, subnets)?;
        Ok(())
    }

    /// Puts the problem that is said in place of the one at hand.
    fn make(&mut self, alloc: Global) -> Result<String, OutOfMemory> {
        let draft = mem::replace(&mut self.draft, Draft::new(alloc));
        match draft.into_problem(alloc) {
            Ok(problem) => self.take(alloc, problem),
            Err(OutOfMemory) => Err(OutOfMemory),
        }
    }

    /// Puts a problem in place of the one at hand.
    fn take(&mut self, alloc: Global, problem: Option<Problem>) -> Result<String, OutOfMemory> {
        let word = if problem.is_some() {
            ": made"
        } else {
            ": unfit"
        };
        self.problem = problem;
        Ok(String::from_str(alloc, word)?)
    }
}

/// The ranges at a cap.
fn ranges(alloc: Global, problem: &Problem, cap: u16) -> Result<String, OutOfMemory> {
    if !are_below(problem.low.as_slice(), cap) {
        return Ok(String::from_str(alloc, ": unfit")?);
    }
    let costs = box_at(alloc, problem, cap)?;
    box_text(alloc, &costs)
}

/// The restricted problem of these requests, where they are some in order.
fn only(alloc: Global, problem: &Problem, members: &[u32]) -> Result<Option<Problem>, OutOfMemory> {
    if !are_members(members, problem.requests.as_slice().len()) {
        return Ok(None);
    }
    Ok(Some(problem.only(alloc, members)?))
}

/// What is answered to a line that asks something of the problem at hand.
fn called(alloc: Global, problem: &Problem, asked: &Command) -> Result<String, OutOfMemory> {
    match asked {
        Command::Decide(cap, case_limits) => decide_text(alloc, problem, *cap, *case_limits),
        Command::Told(cap, case_limits, count) => {
            told_text(alloc, problem, *cap, *case_limits, *count)
        }
        Command::Least(case_limits) => least_text(alloc, problem, *case_limits),
        Command::Show => problem_text(alloc, problem),
        Command::Ranges(cap) => ranges(alloc, problem, *cap),
        _ => Ok(String::from_str(alloc, "")?),
    }
}

/// The restricted problem of these requests in place of the one at hand, where they are some in order.
fn restricted(
    alloc: Global,
    scene: &mut Scene,
    part: Option<Problem>,
) -> Result<String, OutOfMemory> {
    match part {
        None => Ok(String::from_str(alloc, ": unfit")?),
        part => scene.take(alloc, part),
    }
}

/// What is answered to a line that speaks of the problem at hand.
fn of_problem(alloc: Global, scene: &mut Scene, asked: &Command) -> Result<String, OutOfMemory> {
    let Some(problem) = &scene.problem else {
        return Ok(String::from_str(alloc, ": no problem")?);
    };
    let Command::Only(members) = asked else {
        return called(alloc, problem, asked);
    };
    match only(alloc, problem, members.as_slice()) {
        Ok(part) => restricted(alloc, scene, part),
        Err(OutOfMemory) => Err(OutOfMemory),
    }
}

/// What is answered where something more was said.
fn said(alloc: Global, done: Result<(), OutOfMemory>) -> Result<String, OutOfMemory> {
    done?;
    Ok(String::from_str(alloc, "")?)
}

/// What is answered to what is asked.
fn answered(alloc: Global, scene: &mut Scene, asked: Command) -> Result<String, OutOfMemory> {
    match asked {
        Command::Network(routers, subnets) => said(alloc, scene.begin(alloc, routers, subnets)),
        Command::Variable(router, interface, low, high) => said(
            alloc,
            scene.draft.add_variable(router, interface, low, high),
        ),
        Command::Link(edge) => said(alloc, scene.draft.add_edge(edge)),
        Command::Path(request) => said(alloc, scene.draft.add_path(request)),
        Command::Problem => scene.make(alloc),
        asked => of_problem(alloc, scene, &asked),
    }
}

/// What is answered to a line.
fn reply(alloc: Global, scene: &mut Scene, line: &str) -> Result<String, OutOfMemory> {
    match read_command(alloc, line) {
        Ok(Command::Comment) => Ok(String::from_str(alloc, "")?),
        Ok(asked) => answered(alloc, scene, asked),
        Err(Stop::Unread) => Ok(String::from_str(alloc, ": no line of a script")?),
        Err(Stop::OutOfMemory) => Err(OutOfMemory),
    }
}

impl Script for Scene {
    fn answer(&mut self, alloc: Global, line: &str) -> io::Result<String> {
        Ok(reply(alloc, self, line).map_err(|_| AllocError)?)
    }
}
