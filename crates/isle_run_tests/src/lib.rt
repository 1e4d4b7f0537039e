//! Tests of `isle_run`, over its public calls: worlds whose answers their declarations don't allow, which no table can be, makers of values, and
//! calls that no rule matches.
#![tactic(auto)]

#[cfg(test)]
mod coverage;
#[cfg(test)]
mod programs;
#[cfg(test)]
mod values;
#[cfg(test)]
mod worlds;
