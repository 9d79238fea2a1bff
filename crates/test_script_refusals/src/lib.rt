//! Tests in which scripts are refused memory: each test takes all memory of its process but a number of bytes.
#![tactic(auto)]

#[cfg(test)]
mod scripts;
