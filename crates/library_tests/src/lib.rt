//! Tests of the libraries, each by what only a caller of a library sees. What the program shows is tested in `tests/`.
#![tactic(auto)]

#[cfg(test)]
mod desks;
#[cfg(test)]
mod of_desk;
#[cfg(test)]
mod of_escrow;
#[cfg(test)]
mod of_files;
#[cfg(test)]
mod of_index;
#[cfg(test)]
mod of_keep;
#[cfg(test)]
mod of_laws;
#[cfg(test)]
mod of_ledger;
#[cfg(test)]
mod of_rounds;
#[cfg(test)]
mod of_web;
#[cfg(test)]
mod of_words;
#[cfg(test)]
mod streams;
