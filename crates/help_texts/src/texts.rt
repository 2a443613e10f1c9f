//! The texts of `help`, a file for each.

pub(crate) mod all;
pub(crate) mod audit;
pub(crate) mod change;
pub(crate) mod check;
pub(crate) mod compare;
pub(crate) mod conflict;
pub(crate) mod design;
pub(crate) mod help;
pub(crate) mod lsas;
pub(crate) mod rewrite;
pub(crate) mod route;
pub(crate) mod spread;
pub(crate) mod steps;
pub(crate) mod total;
pub(crate) mod trial;
pub(crate) mod version;
