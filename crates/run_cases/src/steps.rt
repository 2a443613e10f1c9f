//! The steps of a shell script, with the script's variables put in.

use anyhow::{Context, Result, bail, ensure};
use std::alloc::{AllocError, Global};
use std::collections::BTreeMap;

/// A folder: its path, and the bytes of its files by their names.
#[derive(Drop)]
pub(crate) struct Folder {
    pub(crate) path: String,
    pub(crate) files: BTreeMap<String, Vec<u8>>,
}

impl Folder {
    /// A folder without files, and without a path.
    pub(crate) fn new(alloc: Global) -> Folder {
        Folder {
            path: String::new(alloc),
            files: BTreeMap::new(alloc),
        }
    }

    /// The path of a file of this name.
    pub(crate) fn path_of(&self, alloc: Global, name: &str) -> Result<String, AllocError> {
        let path = self.path.as_str();
        format!(in alloc; "{path}/{name}")
    }

    /// Adds a file.
    pub(crate) fn add(
        &mut self,
        alloc: Global,
        name: &str,
        bytes: Vec<u8>,
    ) -> Result<(), AllocError> {
        let name = String::from_str(alloc, name)?;
        self.files.insert(name, bytes)?;
        Ok(())
    }

    /// The names of the configurations, `*.conf`, in the order of their bytes.
    pub(crate) fn configurations(&self, alloc: Global) -> Result<Vec<String>, AllocError> {
        let mut names = Vec::new(alloc);
        for name in self.files.keys() {
            if name.as_str().ends_with(".conf") {
                names.push(String::from_str(alloc, name.as_str())?)?;
            }
        }
        Ok(names)
    }

    /// Adds the paths of the configurations.
    fn add_configurations(&self, alloc: Global, words: &mut Vec<String>) -> Result<(), AllocError> {
        for name in self.configurations(alloc)? {
            words.push(self.path_of(alloc, name.as_str())?)?;
        }
        Ok(())
    }
}

/// What the variables of a script stand for.
#[derive(Drop)]
pub(crate) struct Variables {
    /// `$request`, a path.
    pub(crate) request: String,
    /// `$old`, the folder of the configurations.
    pub(crate) old: Folder,
    /// `$new`, the folder of the files that the steps make.
    pub(crate) new: Folder,
    /// `$configuration`, by its name in `$old`; None outside of the loop over them.
    pub(crate) configuration: Option<String>,
}

/// A step of a script.
#[derive(Drop)]
pub(crate) struct Step {
    /// The name in `$new` of the file that gets the output.
    pub(crate) output: String,
    /// The words after the program's name.
    pub(crate) words: Vec<String>,
}

/// Whether a shell takes a word as it stands: letters, digits, `-` and `.`.
fn is_plain(word: &str) -> bool {
    for byte in word.as_bytes() {
        match *byte {
            b'a'..=b'z' | b'A'..=b'Z' | b'0'..=b'9' | b'-' | b'.' => {}
            _ => return false,
        }
    }
    !word.is_empty()
}

/// A word that a shell takes as it stands.
fn plain(alloc: Global, word: &str) -> Result<String> {
    ensure!(is_plain(word), "the word `{word}` isn't understood");
    Ok(String::from_str(alloc, word)?)
}

impl Variables {
    /// The name of `$configuration`.
    fn configuration(&self) -> Result<&str> {
        match &self.configuration {
            Some(name) => Ok(name.as_str()),
            None => bail!("no configuration is at hand"),
        }
    }

    /// The path of a file that a step before has made.
    fn made(&self, alloc: Global, name: &str) -> Result<String> {
        let is_made = self.new.files.contains_key(name);
        ensure!(is_made, "no step before makes `{name}`");
        Ok(self.new.path_of(alloc, name)?)
    }

    /// What a single word comes to: `"$configuration"`, `"$new/NAME"`, or a plain word.
    fn single(&self, alloc: Global, word: &str) -> Result<String> {
        if word == "\"$configuration\"" {
            return Ok(self.old.path_of(alloc, self.configuration()?)?);
        }
        let Some(made) = word.strip_prefix("\"$new/") else {
            return plain(alloc, word);
        };
        self.made(alloc, made.strip_suffix("\"").context("no end of a word")?)
    }

    /// What a single word comes to: `"$request"`, or what `single` says.
    fn word(&self, alloc: Global, word: &str) -> Result<String> {
        if word == "\"$request\"" {
            return Ok(String::from_str(alloc, self.request.as_str())?);
        }
        self.single(alloc, word)
    }

    /// Adds what a word comes to.
    fn add_word(&self, alloc: Global, word: &str, words: &mut Vec<String>) -> Result<()> {
        match word {
            "\"$old\"/*.conf" => Ok(self.old.add_configurations(alloc, words)?),
            "\"$new\"/*.conf" => Ok(self.new.add_configurations(alloc, words)?),
            _ => {
                let word = self.word(alloc, word)?;
                Ok(words.push(word)?)
            }
        }
    }

    /// What words come to, which stand one space apart.
    pub(crate) fn read_words(&self, alloc: Global, text: &str) -> Result<Vec<String>> {
        let mut words = Vec::new(alloc);
        for word in text.split(' ') {
            self.add_word(alloc, word, &mut words)?;
        }
        Ok(words)
    }

    /// The name of a step's output, and what stands behind it.
    fn read_output<'a>(&self, alloc: Global, text: &'a str) -> Result<(String, &'a str)> {
        if let Some(rest) = text.strip_prefix("\"$(basename \"$configuration\")\" ") {
            return Ok((String::from_str(alloc, self.configuration()?)?, rest));
        }
        let (output, rest) = text.split_once(' ').context("no command")?;
        Ok((plain(alloc, output)?, rest))
    }

    /// The step `OUTPUT COMMAND WORD..`. The command is `"$checker"` before the word `check`, and else `"$program"`.
    pub(crate) fn read_step(&self, alloc: Global, text: &str) -> Result<Step> {
        let (output, rest) = self.read_output(alloc, text)?;
        let words = self.read_words(alloc, words_of(rest)?)?;
        Ok(Step { output, words })
    }
}

/// The words behind a command: `"$checker"` before the word `check`, and else `"$program"`.
fn words_of(text: &str) -> Result<&str> {
    let (command, rest) = text.split_once(' ').context("no words")?;
    let due = if rest.starts_with("check ") {
        "\"$checker\""
    } else {
        "\"$program\""
    };
    ensure!(command == due, "the command isn't `{due}`");
    Ok(rest)
}
