//! A case of a shell script: each step of the script is a run.

use crate::case::Case;
use crate::case_file::{file_of, read, read_in};
use crate::play::play_as;
use crate::steps::{Folder, Step, Variables};
use anyhow::{Context, Result, bail, ensure};
use std::alloc::{AllocError, Global};
use std::collections::{BTreeMap, VecDeque};
use std::fs;
use std::rt::Files;

/// The lines of a script that say what its variables are.
const SETTINGS: &str = "
request=$1
old=$2
new=$3
";

/// The lines of a script that say what a step is.
const DEFINITION: &str = "
step() {
    output=$new/$1
    shift
    status=0
    \"$@\" >\"$output\" || status=$?
    if [ \"$status\" -ne 0 ]; then
        echo \"stopped with status $status, $(name_of \"$status\"): $2, output in $output\" >&2
        exit \"$status\"
    fi
}
";

/// The line behind which the steps stand.
const START: &str = "\nmkdir \"$new\"\n";

/// The line that begins the loop over the configurations.
const LOOP: &str = "\nfor configuration in \"$old\"/*.conf; do\n";

/// The line that ends it.
const LOOP_END: &str = "\ndone\n";

/// A file that a step is to make.
#[derive(Drop)]
struct Due {
    /// Its name in the folder of what is new.
    name: String,
    bytes: Vec<u8>,
}

/// How far a script was played.
#[derive(Drop)]
struct Progress {
    variables: Variables,
    /// The bytes of the request file.
    request: Vec<u8>,
    /// The files that the steps to come are to make.
    due: VecDeque<Due>,
    /// What differed.
    told: String,
}

/// Adds a file to those of a shelf.
fn shelve(alloc: Global, case: &mut Case, path: &str, bytes: &[u8]) -> Result<(), AllocError> {
    let file = file_of(alloc, path, bytes)?;
    Ok(case.files.push(file)?)
}

/// Adds the files of a folder to those of a shelf, under their paths.
fn shelve_all(alloc: Global, case: &mut Case, folder: &Folder) -> Result<(), AllocError> {
    for (name, bytes) in &folder.files {
        let path = folder.path_of(alloc, name.as_str())?;
        shelve(alloc, case, path.as_str(), bytes)?;
    }
    Ok(())
}

impl Progress {
    /// Nothing played, and nothing known of what there is.
    fn new(alloc: Global) -> Progress {
        Progress {
            variables: Variables {
                request: String::new(alloc),
                old: Folder::new(alloc),
                new: Folder::new(alloc),
                configuration: None,
            },
            request: Vec::new(alloc),
            due: VecDeque::new(alloc),
            told: String::new(alloc),
        }
    }

    /// Reads `PATH NAME ..`, the folder of the configurations.
    fn read_old(&mut self, rt: &(impl Files + AllocGlobal), text: &str) -> Result<()> {
        let (folder, names) = text.split_once(' ').context("no configurations")?;
        self.variables.old.path = String::from_str(rt.alloc(), folder)?;
        for name in names.split(' ') {
            let bytes = read_in(rt, folder, name)?;
            self.variables.old.add(rt.alloc(), name, bytes)?;
        }
        Ok(())
    }

    /// Reads `NAME PATH`, a file that the next step is to make.
    fn read_due(&mut self, rt: &(impl Files + AllocGlobal), text: &str) -> Result<()> {
        let (name, path) = text.split_once(' ').context("no path")?;
        let bytes = read(rt, path)?;
        let name = String::from_str(rt.alloc(), name)?;
        Ok(self.due.push_back(Due { name, bytes })?)
    }

    /// Reads the request file.
    fn read_request(&mut self, rt: &(impl Files + AllocGlobal), path: &str) -> Result<()> {
        self.variables.request = String::from_str(rt.alloc(), path)?;
        self.request = read(rt, path)?;
        Ok(())
    }

    /// Reads a line of the case's file, but for the script's name.
    fn read_line(&mut self, rt: &(impl Files + AllocGlobal), line: &str) -> Result<()> {
        let (kind, rest) = line.split_once(' ').unwrap_or((line, ""));
        match kind {
            "" | "#" | "script" => Ok(()),
            "request" => self.read_request(rt, rest),
            "old" => self.read_old(rt, rest),
            "new" => {
                self.variables.new.path = String::from_str(rt.alloc(), rest)?;
                Ok(())
            }
            "makes" => self.read_due(rt, rest),
            _ => bail!("no line of a script's case begins with `{kind}`"),
        }
    }

    /// Adds the files that a step finds.
    fn shelve_found(&self, alloc: Global, case: &mut Case) -> Result<(), AllocError> {
        let variables = &self.variables;
        shelve(alloc, case, variables.request.as_str(), &self.request)?;
        shelve_all(alloc, case, &variables.old)?;
        shelve_all(alloc, case, &variables.new)
    }

    /// Plays the run of a step that is to write a file of a name and these bytes.
    fn play_due(
        &mut self,
        alloc: Global,
        case: &mut Case,
        name: &str,
        bytes: &[u8],
    ) -> Result<(), AllocError> {
        case.wanted.output.extend_from_slice(bytes)?;
        self.shelve_found(alloc, case)?;
        play_as(alloc, &mut self.told, name, case)
    }

    /// Plays a step that is to make a file. The steps behind it find the file.
    fn make(&mut self, alloc: Global, step: Step, due: Due) -> Result<()> {
        let Due { name, bytes } = due;
        let Step { output, words } = step;
        ensure!(output.as_str() == name.as_str(), "`{name}` is wanted");
        let mut case = Case::new(alloc);
        case.words = words;
        self.play_due(alloc, &mut case, name.as_str(), &bytes)?;
        Ok(self.variables.new.add(alloc, name.as_str(), bytes)?)
    }

    /// Plays a step, which is to make the next file.
    fn play_step(&mut self, alloc: Global, text: &str) -> Result<()> {
        let step = self.variables.read_step(alloc, text)?;
        match self.due.pop_front() {
            Some(due) => self.make(alloc, step, due),
            None => bail!("a step too many"),
        }
    }

    /// Plays a line. Only a step does something; `cat` may print what was made.
    fn play_line(&mut self, alloc: Global, line: &str) -> Result<()> {
        let (kind, rest) = line.split_once(' ').unwrap_or((line, ""));
        match kind {
            "" | "#" => Ok(()),
            "step" => self.play_step(alloc, rest),
            "cat" => {
                self.variables.read_words(alloc, rest)?;
                Ok(())
            }
            _ => bail!("the line isn't understood"),
        }
    }

    /// Plays lines that are not in a loop, or in one turn of it.
    fn play_lines(&mut self, alloc: Global, lines: &str) -> Result<()> {
        for line in lines.split('\n') {
            self.play_line(alloc, line.trim_start())
                .context(format_args!("at `{line}`"))?;
        }
        Ok(())
    }

    /// Plays the lines inside of a loop, once for each of these configurations.
    fn play_turns(&mut self, alloc: Global, names: Vec<String>, inside: &str) -> Result<()> {
        for name in names {
            self.variables.configuration = Some(name);
            self.play_lines(alloc, inside)?;
        }
        self.variables.configuration = None;
        Ok(())
    }

    /// Plays the lines inside of the loop and those behind it.
    fn play_loop(&mut self, alloc: Global, behind: &str) -> Result<()> {
        let (inside, after) = behind.split_once(LOOP_END).context("a loop doesn't end")?;
        let names = self.variables.old.configurations(alloc)?;
        self.play_turns(alloc, names, inside)?;
        self.play_lines(alloc, after)
    }

    /// Plays the lines behind the start of the steps.
    fn play_steps(&mut self, alloc: Global, steps: &str) -> Result<()> {
        let Some((before, behind)) = steps.split_once(LOOP) else {
            return self.play_lines(alloc, steps);
        };
        self.play_lines(alloc, before)?;
        self.play_loop(alloc, behind)
    }

    /// Reads the lines of the case's file.
    fn read_lines(&mut self, rt: &(impl Files + AllocGlobal), text: &str) -> Result<()> {
        for line in text.split('\n') {
            self.read_line(rt, line)
                .context(format_args!("at `{line}`"))?;
        }
        Ok(())
    }

    /// Reads the lines of the case's file, and plays steps, which are to make all files that it says.
    fn play_case(
        &mut self,
        rt: &(impl Files + AllocGlobal),
        steps: &str,
        text: &str,
    ) -> Result<()> {
        self.read_lines(rt, text)?;
        self.play_steps(rt.alloc(), steps)?;
        if let Some(due) = self.due.front() {
            let name = due.name.as_str();
            bail!("no step makes `{name}`");
        }
        Ok(())
    }
}

/// The lines of a script behind its start, where the lines before say what variables and steps are taken to be.
fn steps_of(script: &str) -> Result<&str> {
    let (head, steps) = script
        .split_once(START)
        .context("the script doesn't begin")?;
    ensure!(
        head.contains(SETTINGS),
        "the variables aren't set as they are read"
    );
    ensure!(
        head.contains(DEFINITION),
        "a step isn't what it is taken for"
    );
    for line in head.split('\n') {
        let is_step = line.trim_start().starts_with("step ");
        ensure!(!is_step, "a step before the start: `{line}`");
    }
    Ok(steps)
}

/// The path of the script that a case goes through, or None where the case has no script.
pub(crate) fn script_of(text: &str) -> Option<&str> {
    for line in text.split('\n') {
        if let Some(path) = line.strip_prefix("script ") {
            return Some(path);
        }
    }
    None
}

/// Plays steps. The text is empty where they make, in this order, the files that the case says.
fn play_steps(rt: &(impl Files + AllocGlobal), steps: &str, text: &str) -> Result<String> {
    let mut progress = Progress::new(rt.alloc());
    progress.play_case(rt, steps, text)?;
    Ok(progress.told)
}

/// Plays the steps of a script. The text is empty where they make, in this order, the files that the case says.
pub(crate) fn play_script(
    rt: &(impl Files + AllocGlobal),
    path: &str,
    text: &str,
) -> Result<String> {
    let script = fs::read_to_string(rt, path).context(format_args!("reading {path}"))?;
    play_steps(rt, steps_of(script.as_str())?, text)
}
