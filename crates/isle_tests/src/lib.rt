//! Tests of the libraries up to `isle_blocks`, over their public calls: what no clause says and no command shows, each public call once with
//! memory at hand that neither the program nor `isle_callers` makes, and the words and bounds that definitions and code could get wrong together.
#![tactic(auto)]

#[cfg(test)]
mod blocks;
#[cfg(test)]
mod layout;
#[cfg(test)]
mod syntax;
#[cfg(test)]
mod tables;
#[cfg(test)]
mod terms;
#[cfg(test)]
mod types;
