//! What a refusal means, in a sentence for the person at a terminal. Nothing of it goes to the output of a run.
#![tactic(auto)]

mod first_piece;
mod line;
mod meaning;
mod place;
mod sayings;
mod sentence;

pub use first_piece::FirstPiece;
pub use sentence::sentence_of;
