//! Tests of Cedar's schema text: tokens, layouts, texts that are read and written again, and
//! fragments that are written beside others. `tests/text.rows` and the files beside it have what the program shows.
#![tactic(auto)]

#[cfg(test)]
mod layouts;
#[cfg(test)]
mod texts;
#[cfg(test)]
mod tokens;
#[cfg(test)]
mod written;
