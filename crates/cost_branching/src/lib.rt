//! One cap decided: costs that fit the problem within the cap, or a branching tree which shows that there are none.
//!
//! The search runs over the rivals of the wanted paths: at each point every request is asked for its cheapest rival,
//! and each that is too cheap becomes a row of the pool.
#![tactic(auto)]

mod one_cap;
mod pool;
mod rivals;

pub use form_search::Found;
pub use one_cap::{decide, decide_within};
pub use pool::Pool;
pub use rivals::{Begun, Rivals, request_count, row_of, variable_count};
