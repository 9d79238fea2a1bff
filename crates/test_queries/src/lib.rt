//! Tests of tokens, schemas, packed rows and states, by their crates' public calls alone. What queries answer, why texts are refused, and
//! what becomes of files is tested by scripts and commands. A test goes through the lines of a table: a case, and what is wanted of it
//! behind ` => `.
#![tactic(auto)]

#[cfg(test)]
mod aggregates;
#[cfg(test)]
mod parts;
#[cfg(test)]
mod rows;
#[cfg(test)]
mod schemas;
#[cfg(test)]
mod tokens;
