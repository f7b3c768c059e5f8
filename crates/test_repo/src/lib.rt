//! Tests of what is below the working copies: of names, paths, properties and texts; of the map from names; of pools and of the map from rising numbers
//! (`test_pool`); and of commits and transactions: what is there after them, which are refused, and how long and deep things may be.
#![tactic(auto)]

#[cfg(test)]
mod bytes;
#[cfg(test)]
mod forms;
#[cfg(test)]
mod histories;
#[cfg(test)]
mod joins;
#[cfg(test)]
mod limits;
#[cfg(test)]
mod maps;
#[cfg(test)]
mod names;
#[cfg(test)]
mod parts;
#[cfg(test)]
mod paths;
#[cfg(test)]
mod properties;
#[cfg(test)]
mod questions;
#[cfg(test)]
mod refusals;
#[cfg(test)]
mod steps;
#[cfg(test)]
mod tails;
#[cfg(test)]
mod test_pool;
#[cfg(test)]
mod texts;
#[cfg(test)]
mod transactions;
