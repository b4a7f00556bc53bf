//! This crate tests what neither a contract nor a case of the command-line suite covers. This crate tests public calls that no command
//! makes, and devices and stores in states that no command reaches.
#![tactic(auto)]

#[cfg(test)]
mod devices;
#[cfg(test)]
mod expect;
#[cfg(test)]
mod isa;
#[cfg(test)]
mod pages;
#[cfg(test)]
mod types;
#[cfg(test)]
mod words;
