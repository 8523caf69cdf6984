//! Tests of what stands on a device: the log, the directory of components, the format, and what an opening finds of them.
#![tactic(auto)]

#[cfg(test)]
mod directories;
#[cfg(test)]
mod formats;
#[cfg(test)]
mod logs;
#[cfg(test)]
mod openings;
