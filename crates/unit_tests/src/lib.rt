//! Tests of public calls that the program does not reach.
#![tactic(auto)]

#[cfg(test)]
mod calls;
#[cfg(test)]
mod entries;
#[cfg(test)]
mod fractions;
#[cfg(test)]
mod sets;
#[cfg(test)]
mod widths;
