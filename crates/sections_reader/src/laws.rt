//! Laws of the texts with costs: each is the contract of a function that does nothing.
ghost use Rattle.sections_reader.specs.Laws.{AnswersSayTheirCosts, CostsAreSaidOnce, OtherTextsSayTheirCosts, SaidCostsAreRead, SaidCostsFit};

/// A text says one list of cost lines.
pub fn costs_are_said_once()
    ensures { CostsAreSaidOnce }
{}

/// A text that says costs, or that there are none, isn't refused.
pub fn said_costs_are_read()
    ensures { SaidCostsAreRead }
{}

/// The cost lines of a text can be printed, and there are no more of them than bytes.
pub fn said_costs_fit()
    ensures { SaidCostsFit }
{}

/// The text of an answer says the answer's costs.
pub fn answers_say_their_costs()
    ensures { AnswersSayTheirCosts }
{}

/// What `total`, `spread` or `change` writes says the costs of its sections, whatever lines stand behind them.
pub fn other_texts_say_their_costs()
    ensures { OtherTextsSayTheirCosts }
{}
