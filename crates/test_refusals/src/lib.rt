//! Tests in which memory is refused. In rooms, each test takes all memory of its process but a number of bytes. In the module `growths` one
//! growth of memory after the other is refused, as `bin/refuse_growths` runs it.
#![tactic(auto)]

#[cfg(test)]
mod calls;
#[cfg(test)]
mod growths;
#[cfg(test)]
mod met;
#[cfg(test)]
mod nothing;
#[cfg(test)]
mod rooms;
#[cfg(test)]
mod sites;
#[cfg(test)]
mod trials;
