//! The texts of a trial as files, and the words that name them.
ghost use Rattle.std.specs.Prelude.{◌≡◌, ◌++◌, All, ℕ, List, length, IfOk, OnOk, Some, string_bytes};
ghost use Rattle.std.specs.List.{zip};
ghost use Rattle.std.specs.Str.{IsUtf8};
ghost use Rattle.text_lines.specs.Arguments.{texts};
ghost use Rattle.input_files.specs.Ends.{text_named};
ghost use Rattle.design_commands.specs.Trials.{named_trial_texts};

use cost_base::{Name, OutOfMemory, Shelf, SureShelf};
use std::alloc::Global;
use trial_maker::TrialTexts;

/// The name of a trial's request file.
pub(crate) const REQUEST: &str = "request.txt";

/// A name as a word.
fn word_of(alloc: Global, name: &Name) -> Result<String, OutOfMemory>
    requires { IsUtf8 name.now }
    ensures { IfOk result (λ word. string_bytes word ≡ name.now) }
{
    let text = std::str::from_utf8(name.as_bytes()).unwrap();
    Ok(String::from_str(alloc, text)?)
}

/// The names of files as words.
pub(crate) fn words_of(alloc: Global, names: &[Name]) -> Result<Vec<String>, OutOfMemory>
    requires { All IsUtf8 names.now }
    ensures { IfOk result (λ words. texts words.items ≡ names.now) }
{
    let mut words = Vec::new(alloc);
    for name in names {
        words.push(word_of(alloc, name)?)?;
    }
    Ok(words)
}

/// A file of a name and bytes.
fn file_of(alloc: Global, name: &[u8], bytes: &[u8]) -> Result<(Name, Name), OutOfMemory>
    ensures { IfOk result (λ file. file ≡ (name.now, bytes.now)) }
{
    let name = Name::from_bytes(alloc, name)?;
    let bytes = Name::from_bytes(alloc, bytes)?;
    Ok((name, bytes))
}

/// Adds files of these names and texts, in order.
fn push_files(
    alloc: Global,
    files: &mut Vec<(Name, Name)>,
    names: &[Name],
    texts: &[Name],
) -> Result<(), OutOfMemory>
    requires { length names.now ≡ length texts.now }
    ensures { OnOk result (files.new.items ≡ files.old.items ++ zip names.now texts.now) }
{
    for (place, name) in names.iter().enumerate() {
        files.push(file_of(alloc, name.as_bytes(), texts[place].as_bytes())?)?;
    }
    Ok(())
}

/// The texts of a trial, each with its name, as a shelf that never fails.
pub(crate) fn shelf_of(alloc: Global, trial: &TrialTexts) -> Result<SureShelf, OutOfMemory>
    requires { length trial.now.names ≡ length trial.now.configs }
    ensures { IfOk result (λ shelf. (name : List ℕ) → ⟦<SureShelf as Shelf>⟧.held shelf name ≡
        Some (text_named (named_trial_texts trial.now) name)) }
{
    let mut files = Vec::new(alloc);
    files.push(file_of(alloc, REQUEST.as_bytes(), trial.request.as_bytes())?)?;
    push_files(
        alloc,
        &mut files,
        trial.names.as_slice(),
        trial.configs.as_slice(),
    )?;
    Ok(SureShelf::new(files))
}
