//! Tests of the language of scripts: numbers, commands and printed lines.
#![tactic(auto)]

#[cfg(test)]
mod lines;
