//! The seven tables, one file for each: how its rows are put in and read.

pub(crate) mod desk;
pub(crate) mod field;
pub(crate) mod firm;
pub(crate) mod kept;
pub(crate) mod line;
pub(crate) mod moves;
pub(crate) mod orders;
