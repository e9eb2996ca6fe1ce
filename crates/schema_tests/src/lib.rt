//! Tests of whole schemas over Cedar's schema text: what schemas answer to questions, which are equal,
//! what the builders and validation answer of what no file declares, what is converted back and
//! compared, how large types are, and which requests conform.
#![tactic(auto)]

#[cfg(test)]
mod comparisons;
#[cfg(test)]
mod converted_back;
#[cfg(test)]
mod equality;
#[cfg(test)]
mod measured;
#[cfg(test)]
mod parts;
#[cfg(test)]
mod plain;
#[cfg(test)]
mod questions;
#[cfg(test)]
mod requests;
#[cfg(test)]
mod reserved;
#[cfg(test)]
mod schemas;
#[cfg(test)]
mod validation;
