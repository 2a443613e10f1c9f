//! A law about printed costs: it is the contract of a function that does nothing.
ghost use Rattle.read_back_laws.specs.Laws.{CostsReadBack};

/// The costs of a text's sections, put behind the configurations, make the network that has these costs.
pub fn printed_costs_read_back()
    ensures { CostsReadBack }
{}
