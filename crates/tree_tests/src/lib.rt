//! Tests of trees on pages: of the primary's rows, of points, of the primary's lookups, and of the jobs that write them.
#![tactic(auto)]

#[cfg(test)]
mod btrees;
#[cfg(test)]
mod jobs;
#[cfg(test)]
mod mem_pages;
#[cfg(test)]
mod primary;
#[cfg(test)]
mod primary_rows;
#[cfg(test)]
mod rtrees;
