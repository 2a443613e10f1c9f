//! The file of a case, line by line.

use crate::advisors::CaseAdvisor;
use crate::case::Case;
use crate::pieces::{push_lines, push_numbered};
use anyhow::{Context, Result, bail};
use cost_base::Name;
use std::alloc::{AllocError, Global};
use std::rt::Files;
use std::{fs, mem};

/// What the pieces that come are pieces of.
#[derive(Drop)]
enum Target {
    /// Nothing yet.
    Nothing,
    /// A file of the shelf, by its name.
    File(Name),
    /// The wanted output.
    Output,
}

/// A case as far as its lines were read, and the text that is being put together from pieces.
#[derive(Drop)]
struct Draft {
    case: Case,
    target: Target,
    text: Vec<u8>,
}

/// A name, or a text, of these bytes.
fn name_of(alloc: Global, bytes: &[u8]) -> Result<Name, AllocError> {
    match Name::from_bytes(alloc, bytes) {
        Ok(name) => Ok(name),
        Err(_) => Err(AllocError),
    }
}

/// A file of a name and these bytes.
pub(crate) fn file_of(alloc: Global, name: &str, bytes: &[u8]) -> Result<(Name, Name), AllocError> {
    let name = name_of(alloc, name.as_bytes())?;
    Ok((name, name_of(alloc, bytes)?))
}

/// A number and what stands behind the space after it.
fn number_and_rest(text: &str) -> Result<(u64, &str)> {
    let (number, rest) = text.split_once(' ').context("a value is missing")?;
    Ok((number.parse::<u64>().context("no number")?, rest))
}

/// The advisor of a line: `picks POSITION`, or `smallest-number`.
fn advisor(text: &str) -> Result<CaseAdvisor> {
    if text == "smallest-number" {
        return Ok(CaseAdvisor::SmallestNumber);
    }
    let position = text.strip_prefix("picks ").context("no such advisor")?;
    Ok(CaseAdvisor::Picks(position.parse::<u32>().context("no position")?))
}

impl Draft {
    /// Ends the text that was being put together, and begins another.
    fn begin(&mut self, alloc: Global, target: Target) -> Result<(), AllocError> {
        let text = mem::replace(&mut self.text, Vec::new(alloc));
        match mem::replace(&mut self.target, target) {
            Target::Nothing => {}
            Target::File(name) => self.case.files.push((name, name_of(alloc, &text)?))?,
            Target::Output => self.case.wanted.output = text,
        }
        Ok(())
    }

    /// Adds words, one space apart.
    fn add_words(&mut self, alloc: Global, words: &str) -> Result<(), AllocError> {
        for word in words.split(' ') {
            if !word.is_empty() {
                self.case.words.push(String::from_str(alloc, word)?)?;
            }
        }
        Ok(())
    }

    /// Adds a word so many times: `COUNT WORD`.
    fn repeat_word(&mut self, alloc: Global, rest: &str) -> Result<()> {
        let (count, word) = number_and_rest(rest)?;
        for _ in 0..count {
            self.case.words.push(String::from_str(alloc, word)?)?;
        }
        Ok(())
    }

    /// Adds a file of a folder, under its own name.
    fn add_file(
        &mut self,
        rt: &(impl Files + AllocGlobal),
        folder: &str,
        name: &str,
    ) -> Result<()> {
        let bytes = read_in(rt, folder, name)?;
        let file = file_of(rt.alloc(), name, &bytes)?;
        Ok(self.case.files.push(file)?)
    }

    /// Adds files of a folder, under their own names.
    fn add_files(&mut self, rt: &(impl Files + AllocGlobal), files: &str) -> Result<()> {
        let (folder, names) = files.split_once(' ').context("no names of files")?;
        for name in names.split(' ') {
            self.add_file(rt, folder, name)?;
        }
        Ok(())
    }

    /// Adds a line to the text.
    fn add_line(&mut self, line: &str) -> Result<(), AllocError> {
        self.text.extend_from_slice(line.as_bytes())?;
        Ok(self.text.push(b'\n')?)
    }

    /// Adds the bytes of a file to the text.
    fn add_copy(&mut self, rt: &(impl Files + AllocGlobal), path: &str) -> Result<()> {
        let bytes = read(rt, path)?;
        Ok(self.text.extend_from_slice(&bytes)?)
    }

    /// Adds lines of a file to the text, or the file many times: `FROM TO PATH`.
    fn add_range(&mut self, rt: &(impl Files + AllocGlobal), kind: &str, rest: &str) -> Result<()> {
        let (from, rest) = number_and_rest(rest)?;
        let (to, path) = number_and_rest(rest)?;
        let text = read(rt, path)?;
        let added = match kind {
            "lines" => push_lines(&mut self.text, &text, from as usize, to as usize),
            _ => push_numbered(rt.alloc(), &mut self.text, &text, from, to),
        };
        Ok(added?)
    }

    /// Adds a piece to the text: the line `line TEXT`, `text TEXT`, `copy PATH`, `lines FROM TO PATH` or `repeat FROM
    /// TO PATH`.
    fn add_piece(&mut self, rt: &(impl Files + AllocGlobal), kind: &str, rest: &str) -> Result<()> {
        match kind {
            "line" => Ok(self.add_line(rest)?),
            "text" => Ok(self.text.extend_from_slice(rest.as_bytes())?),
            "copy" => self.add_copy(rt, rest),
            _ => self.add_range(rt, kind, rest),
        }
    }

    /// Begins a file of a name.
    fn begin_file(&mut self, alloc: Global, name: &str) -> Result<(), AllocError> {
        let name = name_of(alloc, name.as_bytes())?;
        self.begin(alloc, Target::File(name))
    }

    /// Adds a call of the sink that fails: `CALL KEPT`.
    fn add_failing_put(&mut self, rest: &str) -> Result<()> {
        let (call, kept) = number_and_rest(rest)?;
        let kept = kept.parse::<usize>().context("no number of bytes")?;
        Ok(self.case.failing_puts.push((call, kept))?)
    }

    /// Takes what the case says by one number: its status, how many advisors are left, or a call of the
    /// shelf that fails.
    fn take_number(&mut self, kind: &str, rest: &str) -> Result<()> {
        let number = rest.parse::<usize>().context("no number")?;
        match kind {
            "status" => self.case.wanted.status = number,
            "advisors-left" => self.case.wanted.advisors_left = number,
            _ => self.case.failing_takes.push(number as u64)?,
        }
        Ok(())
    }

    /// Reads a line that is no piece of a text, and adds no words or files.
    fn read_other(&mut self, alloc: Global, kind: &str, rest: &str) -> Result<()> {
        match kind {
            "" | "#" => Ok(()),
            "file" => Ok(self.begin_file(alloc, rest)?),
            "output" => Ok(self.begin(alloc, Target::Output)?),
            "status" | "advisors-left" | "take" => self.take_number(kind, rest),
            "put" => self.add_failing_put(rest),
            "advisor" => {
                let advisor = advisor(rest)?;
                Ok(self.case.advisors.push(advisor)?)
            }
            "sure" => {
                self.case.is_sure = true;
                Ok(())
            }
            _ => bail!("no line of a case begins with `{kind}`"),
        }
    }

    /// Reads a line of the case's file.
    fn read_line(&mut self, rt: &(impl Files + AllocGlobal), line: &str) -> Result<()> {
        let alloc = rt.alloc();
        let (kind, rest) = line.split_once(' ').unwrap_or((line, ""));
        match kind {
            "words" => Ok(self.add_words(alloc, rest)?),
            "repeat-word" => self.repeat_word(alloc, rest),
            "files" => self.add_files(rt, rest),
            "line" | "text" | "copy" | "lines" | "repeat" => self.add_piece(rt, kind, rest),
            _ => self.read_other(alloc, kind, rest),
        }
    }

    /// Reads lines of the case's file, and ends the text behind them.
    fn read_block(&mut self, rt: &(impl Files + AllocGlobal), block: &str) -> Result<()> {
        for line in block.split('\n') {
            self.read_line(rt, line)
                .context(format_args!("at `{line}`"))?;
        }
        Ok(self.begin(rt.alloc(), Target::Nothing)?)
    }

    /// Reads the lines that stand for every run of the case, and then a run's own.
    fn read_blocks(
        &mut self,
        rt: &(impl Files + AllocGlobal),
        common: &str,
        own: &str,
    ) -> Result<()> {
        self.read_block(rt, common)?;
        self.read_block(rt, own)
    }
}

/// The bytes of a file.
pub(crate) fn read(rt: &(impl Files + AllocGlobal), path: &str) -> Result<Vec<u8>> {
    Ok(fs::read(rt, path).context(format_args!("reading {path}"))?)
}

/// The bytes of a file of a folder.
pub(crate) fn read_in(
    rt: &(impl Files + AllocGlobal),
    folder: &str,
    name: &str,
) -> Result<Vec<u8>> {
    let path = format!(in rt.alloc(); "{folder}/{name}")?;
    read(rt, path.as_str())
}

/// A run of a case, from the lines that stand for every run of it and then the run's own. The last file of
/// a name counts.
pub(crate) fn read_case(rt: &(impl Files + AllocGlobal), common: &str, own: &str) -> Result<Case> {
    let alloc = rt.alloc();
    let mut draft = Draft {
        case: Case::new(alloc),
        target: Target::Nothing,
        text: Vec::new(alloc),
    };
    draft.read_blocks(rt, common, own)?;
    draft.case.files.reverse();
    Ok(draft.case)
}
