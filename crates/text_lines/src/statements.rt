//! Reading a text of statements: the first line that says something is the header, and each later one is a statement.
ghost use Rattle.std.specs.Prelude.{◌≡◌, ◌∷◌, ◌++◌, ◌-◌, ◌^◌, ◌<◌, List, [], None, length, MatchOption, IfOk, IfErr, OnOk};
ghost use Rattle.text_lines.specs.Lines.{lines, words};
ghost use Rattle.text_lines.specs.LineFaults.{TellsFault, fault_in_line};
ghost use Rattle.text_lines.specs.Statements as definition;
ghost use Rattle.text_lines.specs.Statements.{SaidLine, StandsBehind, behind_header, fault_of_words, rules_of, said_in_line, said_words, statements, text_fault};

use crate::kinds::is_comment_word;
use crate::line_reader::{Line, Lines};
use crate::word_reader::first_word;
use cost_base::Refusal;
use std::alloc::Global;

/// The longest line of such a text, in bytes.
const LONGEST_LINE: usize = 65_536;

/// The first word of a header.
const OSPFCOST: &[u8] = b"ospfcost";

/// The last word of a header.
const VERSION: &[u8] = b"1";

/// A kind of text: its header is `ospfcost WORD 1`, and `bad_line` is the fault of a line off the form.
#[derive(Clone, Copy)]
pub struct TextKind<'a, F> {
    pub word: &'a [u8],
    pub bad_line: F,
}

/// What takes the statements of a text one after another, up to the first fault.
///
/// Its meanings are `fault_of`, the fault that a statement of these words has behind other statements, as the reader at
/// the start judges; and `took`, that from one state to another it took these statements, of which none had a fault.
pub trait StatementReader<F> {
    ghost use Rattle.std.specs.Prelude.{ℕ, List, Option};
    ghost use Rattle.text_lines.specs.Statements.{SaidLine};

    ghost fault_of: { Self → List SaidLine → List (List ℕ) → Option F };

    ghost took: { Self → Self → List SaidLine → Type 0 };

    /// Takes the statement of the line of this number, whose first word and the text behind it are these.
    ///
    /// # Errors
    ///
    /// `Refused` where the statement has a fault behind those that were taken. `OutOfMemory`.
    fn take(&mut self, alloc: Global, line: u32, word: &[u8], rest: &[u8]) -> Result<(), Refusal<F>>
        // A statement that is taken has no fault, and one that is refused has the fault that is told.
        ensures lawful { OnOk result ((start : Self) (before : List SaidLine) →
            took start self.old before →
            fault_of start before (word.now ∷ words rest.now) ≡ None) }
        ensures taken { OnOk result ((start : Self) (before : List SaidLine) →
            took start self.old before → took start self.new
            (before ++ record { line = line; words = word.now ∷ words rest.now } ∷ [])) }
        ensures refused { IfErr result (λ refusal. (start : Self) (before : List SaidLine) →
            took start self.old before → TellsFault (fault_in_line line
            (fault_of start before (word.now ∷ words rest.now))) refusal) };
}

/// The first word of a line that says something, and the text behind it; None exactly where the line is blank
/// or a comment.
fn first_said(line: &[u8]) -> Option<(&[u8], &[u8])>
    ensures { MatchOption result (said_words (words line.now) ≡ []) (λ p.
        said_words (words line.now) ≡ p.0.now ∷ words p.1.now) }
{
    let (word, rest) = first_word(line)?;
    if is_comment_word(word) {
        None
    } else {
        Some((word, rest))
    }
}

/// Whether a line is `ospfcost KIND 1`, by its first word and the text behind it.
fn is_header(kind: &[u8], word: &[u8], rest: &[u8]) -> bool
    ensures { result ≡ definition.is_header kind.now (word.now ∷ words rest.now) }
{
    let Some((second, more)) = first_word(rest) else {
        return false;
    };
    let Some((third, end)) = first_word(more) else {
        return false;
    };
    word == OSPFCOST && second == kind && third == VERSION && first_word(end).is_none()
}

/// Reads a line, unless it has a fault behind those that were read, and tells whether there is a header now. `begun`
/// says whether there was one.
fn read_line<F: Copy, R: StatementReader<F>>(
    alloc: Global,
    reader: &mut R,
    kind: &TextKind<'_, F>,
    begun: bool,
    line: Line<'_>,
) -> Result<bool, Refusal<F>>
    ensures lawful { OnOk result ((start : R) (said : List SaidLine) →
        StandsBehind (R.took start) reader.old begun said →
        fault_of_words (rules_of kind.now (R.fault_of start)) said
        (said_words (words line.entry.text.now)) ≡ None) }
    ensures read { IfOk result (λ now. (start : R) (said : List SaidLine) →
        StandsBehind (R.took start) reader.old begun said →
        StandsBehind (R.took start) reader.new now
        (said ++ said_in_line line.entry.number (said_words (words line.entry.text.now)))) }
    ensures refused { IfErr result (λ refusal. (start : R) (said : List SaidLine) →
        StandsBehind (R.took start) reader.old begun said →
        TellsFault (fault_in_line line.entry.number
        (fault_of_words (rules_of kind.now (R.fault_of start)) said
        (said_words (words line.entry.text.now)))) refusal) }
{
    let Some((word, rest)) = first_said(line.text) else {
        return Ok(begun);
    };
    if begun {
        reader.take(alloc, line.number, word, rest)?;
        return Ok(true);
    }
    if is_header(kind.word, word, rest) {
        Ok(true)
    } else {
        Err(Refusal::at(line.number, kind.bad_line))
    }
}

/// Reads the statements of a text, and tells how many lines it has. A line has at most 65,536 bytes. Blank lines and
/// comments are passed, and indentation has no meaning. The first other line is the header, and the reader
/// takes the rest.
///
/// # Errors
///
/// `Refused` with the first faulty line: the fault of a statement, or the kind's `bad_line` where a line is too long or
/// not the header where that has to stand, and behind the last line where there is no header. `OutOfMemory` as the
/// reader says.
pub fn read_statements<F: Copy, R: StatementReader<F>>(
    alloc: Global,
    reader: &mut R,
    kind: &TextKind<'_, F>,
    bytes: &[u8],
) -> Result<u32, Refusal<F>>
    // Its lines can be counted, and the reader has taken nothing yet.
    requires few { length bytes.now < 2 ^ 32 - 1 }
    requires none { R.took reader.old reader.old [] }

    // The text has no fault, and the reader took its statements.
    ensures lawful { OnOk result
        (text_fault (rules_of kind.now (R.fault_of reader.old)) bytes.now ≡ None) }
    ensures taken { OnOk result (R.took reader.old reader.new (statements (lines bytes.now))) }
    ensures count { IfOk result (λ count. count ≡ length (lines bytes.now)) }
    ensures few { IfOk result (λ count. count < 2 ^ 32 - 1) }

    // Only a text with a fault is refused.
    ensures refused { IfErr result
        (TellsFault (text_fault (rules_of kind.now (R.fault_of reader.old)) bytes.now)) }
{
    let mut lines = Lines::new(bytes, LONGEST_LINE);
    let mut begun = false;
    while let Some(line) = lines.next_line() {
        match line {
            Ok(line) => {
                begun = read_line(alloc, reader, kind, begun, line)?;
            }
            Err(long) => return Err(Refusal::at(long.number, kind.bad_line)),
        }
    }
    if begun {
        Ok(lines.lines_read())
    } else {
        Err(Refusal::at(lines.lines_read() + 1, kind.bad_line))
    }
}
