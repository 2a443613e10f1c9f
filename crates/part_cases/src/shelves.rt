//! Lines of a script that take files from shelves.

use case_scripts::{list_of, next_word};
use cost_base::{FileShelf, MemoryShelf, Name, OutOfMemory, Shelf, SureShelf};
use std::alloc::{AllocError, Global};
use std::rt::Files;
use std::str::SplitWhitespace;

/// The names and texts of the files that a shelf has: two files of one name and one of another.
const FILES: [(&str, &str); 3] = [
    ("A.conf", "hostname A\n"),
    ("A.conf", "hostname B\n"),
    ("C.conf", "C"),
];

/// Adds a file of a name.
fn add_file(
    alloc: Global,
    files: &mut Vec<(Name, Name)>,
    name: &str,
    text: &str,
) -> Result<(), OutOfMemory> {
    let name = Name::from_bytes(alloc, name.as_bytes())?;
    let text = Name::from_bytes(alloc, text.as_bytes())?;
    Ok(files.push((name, text))?)
}

/// The files that a shelf has.
fn three_files(alloc: Global) -> Result<Vec<(Name, Name)>, OutOfMemory> {
    let mut files = Vec::new(alloc);
    for (name, text) in &FILES {
        add_file(alloc, &mut files, name, text)?;
    }
    Ok(files)
}

/// Takes the file of a word `NAME:MOST`, and tells what came.
fn take_text<S: Shelf>(alloc: Global, shelf: &mut S, word: &str) -> Result<String, AllocError> {
    let (name, most) = word.split_once(':').unwrap_or((word, ""));
    let most = most.parse::<u16>().unwrap_or(0);
    let mut into = Vec::new(alloc);
    let came = shelf.take(name, usize::from(most), &mut into);
    format!(in alloc; "\n  {name}: {came:?} `{}`", into.as_slice().escape_ascii())
}

/// Takes the files of words.
fn takes_text<S: Shelf>(
    alloc: Global,
    shelf: &mut S,
    words: &mut SplitWhitespace<'_>,
) -> Result<String, AllocError> {
    let mut text = String::new(alloc);
    for word in words {
        text.push_str(take_text(alloc, shelf, word)?.as_str())?;
    }
    Ok(text)
}

/// Takes files from memory, where the calls of these numbers fail.
fn failing_text(
    alloc: Global,
    failing: Vec<u64>,
    words: &mut SplitWhitespace<'_>,
) -> Result<String, AllocError> {
    let Ok(files) = three_files(alloc) else {
        return Err(AllocError);
    };
    let mut shelf = MemoryShelf::new(files, failing);
    takes_text(alloc, &mut shelf, words)
}

/// `memory-shelf FAILING NAME:MOST ..`: takes files from memory, where the calls of some numbers fail.
pub(crate) fn memory_shelf_text(alloc: Global, rest: &str) -> Result<String, AllocError> {
    let mut words = rest.split_whitespace();
    let failing = list_of::<u64>(alloc, next_word(&mut words))?;
    failing_text(alloc, failing, &mut words)
}

/// `sure-shelf NAME:MOST ..`: takes files from a shelf that never fails.
pub(crate) fn sure_shelf_text(alloc: Global, rest: &str) -> Result<String, AllocError> {
    let Ok(files) = three_files(alloc) else {
        return Err(AllocError);
    };
    let mut shelf = SureShelf::new(files);
    takes_text(alloc, &mut shelf, &mut rest.split_whitespace())
}

/// `file NAME:MOST ..`: takes files from the folder that the program runs in.
pub(crate) fn file_text(rt: &(impl Files + AllocGlobal), rest: &str) -> Result<String, AllocError> {
    let mut shelf = FileShelf::new(rt.alloc(), rt);
    takes_text(rt.alloc(), &mut shelf, &mut rest.split_whitespace())
}
