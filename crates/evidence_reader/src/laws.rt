//! Laws of answers' texts, each the contract of a function that does nothing.
ghost use Rattle.evidence_reader.specs.Laws.{AnswersAreLawful, AnswersAreRead, LinesLeadOnce};
ghost use Rattle.evidence_reader.specs.Laws.{InvalidAnswersStayInvalid, OneAnswer};
ghost use Rattle.evidence_reader.specs.Laws.{RefusedTextsAreInvalid};

/// The lines of an answer are lawful, one after another, and lead from the head behind the end.
pub fn answers_are_lawful()
    ensures { AnswersAreLawful }
{}

/// A text is that of one answer.
pub fn one_answer()
    ensures { OneAnswer }
{}

/// A line that is in the grammar at a place leads to one place.
pub fn lines_lead_once()
    ensures { LinesLeadOnce }
{}

/// No answer's text is refused.
pub fn answers_are_read()
    ensures { AnswersAreRead }
{}

/// A text that is refused is no valid answer's.
pub fn refused_texts_are_invalid()
    ensures { RefusedTextsAreInvalid }
{}

/// The text of an answer that isn't valid is that of no valid answer.
pub fn invalid_answers_stay_invalid()
    ensures { InvalidAnswersStayInvalid }
{}
