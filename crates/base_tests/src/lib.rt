//! Tests of the crates that stand on few others: the grid and its curve, pages and extents, filters and lists, devices
//! and streams.
#![tactic(auto)]

#[cfg(test)]
mod curve;
#[cfg(test)]
mod devices;
#[cfg(test)]
mod files;
#[cfg(test)]
mod filters;
#[cfg(test)]
mod grid;
#[cfg(test)]
mod lent_pages;
#[cfg(test)]
mod marks;
#[cfg(test)]
mod memory_lists;
#[cfg(test)]
mod merges;
#[cfg(test)]
mod pages;
#[cfg(test)]
mod regions;
#[cfg(test)]
mod space;
#[cfg(test)]
mod streams;
