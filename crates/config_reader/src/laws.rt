//! Laws about the definitions: each is the contract of a function that does nothing.
ghost use Rattle.config_reader.specs.Sections.{SectionsSetCosts};

/// A configuration with a printed section after it says what it said, with the costs of the section, and is accepted
/// where it was.
pub fn sections_set_costs()
    ensures { SectionsSetCosts }
{}
