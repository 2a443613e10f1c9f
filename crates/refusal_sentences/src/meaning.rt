//! What a number means, and what its place is.

ghost use Rattle.std.specs.Prelude.{◌≡◌};
ghost use Rattle.std.specs.Option.{option_copied, option_map};
ghost use Rattle.refusal_sentences.specs.Meanings.{meant_by, meant_in};

use crate::place::Place;
use crate::sayings::{
    said_of_byte, said_of_configuration, said_of_line, said_of_path, said_of_request, said_of_row,
    said_of_spot, said_of_tree_line, said_of_variable, said_of_whole,
};

/// What a number means.
#[derive(Clone, Copy, Debug)]
pub(crate) struct Meaning {
    /// What its place is.
    pub(crate) place: Place,
    /// What is at fault there.
    pub(crate) says: &'static str,
}

/// The meaning of a number that says this of a place of this kind, where it says something.
fn at(place: Place, says: Option<&'static str>) -> Option<Meaning>
    ensures { option_map meant_in result ≡
        option_map (λ says. record { place = place; says = says }) (option_copied says.entry) }
{
    Some(Meaning { place, says: says? })
}

/// What the number of a refusal or a rejection means.
pub(crate) fn meaning_of(number: u8) -> Option<Meaning>
    ensures { option_map meant_in result ≡ meant_by number }
{
    at(Place::Line, said_of_configuration(number))
        .or(at(Place::Line, said_of_request(number)))
        .or(at(Place::Line, said_of_line(number)))
        .or(at(Place::Byte, said_of_byte(number)))
        .or(at(Place::Spot, said_of_spot(number)))
        .or(at(Place::Row, said_of_row(number)))
        .or(at(Place::TreeLine, said_of_tree_line(number)))
        .or(at(Place::Variable, said_of_variable(number)))
        .or(at(Place::Path, said_of_path(number)))
        .or(at(Place::Nothing, said_of_whole(number)))
}
