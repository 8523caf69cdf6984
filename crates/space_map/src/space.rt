//! The map of reserved extents. Free runs are what lies between them, so two of them join by themselves.

ghost use Rattle.std.specs.Prelude.{◌≡◌, ℕ, ◌+◌, ◌-◌, ◌<◌, ◌≤◌, Bool, ◌&&◌, not, List, [], length, slice_index_or, MatchOption, IfOk, IfErr, IsTrue, ◌↔◌, OnOk, OnErr, Contains};

use std::alloc::{AllocError, Global};
use std::error::Error;
use std::fmt;
use std::marker::Model;

/// The first page behind the superblock, the directory and the log: data begins here.
pub const FIRST_DATA_PAGE: u32 = 265;

/// The fewest pages of a device.
pub const LEAST_PAGES: u32 = 1024;

/// The most pages of a device.
pub const MOST_PAGES: u32 = 65536;

/// A run of pages of the device.
#[derive(Clone, Copy, Debug, PartialEq, Eq)]
pub struct Extent {
    /// Its first page.
    pub first: u32,
    /// How many pages it has.
    pub pages: u32,
}

/// Why nothing was reserved.
#[derive(Clone, Copy, Debug, PartialEq, Eq)]
pub enum SpaceFault {
    /// No free run has as many pages as are needed; the longest has so many.
    NoRun { need: u32, longest: u32 },
    OutOfMemory,
}

impl fmt::Display for SpaceFault {
    ghost use Rattle.std.specs.Prelude.{Some};
    ghost use Rattle.space_map.specs.Fault.{fault_text};

    ghost output = { λ fault. Some (fault_text fault) };

    fn fmt<W: fmt::Write>(&self, f: &mut fmt::Formatter<W>) -> fmt::Result {
        match self {
            SpaceFault::NoRun { need, longest } => write!(
                f,
                "no run of {need} free pages: the longest has {longest}"
            ),
            SpaceFault::OutOfMemory => write!(f, "out of memory"),
        }
    }
}

impl Error for SpaceFault {}

/// The reserved extents of a device, ascending.
#[derive(Debug, Drop)]
pub struct SpaceMap {
    pages: u32,
    reserved: Vec<Extent>,
}

impl Model for SpaceMap {
    ghost use Rattle.space_map.specs.Space.{Space};
    ghost use Rattle.space_map.specs.Calls.{AreApart};
    ghost use Rattle.space_map.specs.declared.space.TheConstants.{FIRST_DATA_PAGE};

    ghost Value = { Space };

    ghost view = { λ map. record { reserved = map.reserved.items; pages = map.pages } };

    ghost invariant = { λ map. AreApart FIRST_DATA_PAGE map.pages map.reserved.items };
}

impl SpaceMap {
    ghost use Rattle.space_map.specs.Space.{end_of, is_in, is_reserved, IsFreeRun, IsFirstFit, IsLongest, reserved_with};
    ghost use Rattle.space_map.specs.Calls.{IsSpace, IsRefusal, released_from, reserved_end};

    /// A map of a device of so many pages, on which nothing from the first data page on is reserved.
    pub fn new(alloc: Global, pages: u32) -> SpaceMap
        requires least { LEAST_PAGES ≤ pages }
        requires most { pages ≤ MOST_PAGES }
        ensures { result ≡ record { reserved = []; pages = pages } }
    {
        SpaceMap {
            pages,
            reserved: Vec::new(alloc),
        }
    }

    /// Reserves the front of the first free run of at least `count` pages. After a refusal the map is as before.
    pub fn reserve(&mut self, count: u32) -> Result<Extent, SpaceFault>
        requires { 1 ≤ count }
        ensures fits { IfOk result (λ e. (e.pages ≡ count) × IsFirstFit self.old count e.first) }
        ensures ok { IfOk result (λ e. self.new ≡ reserved_with e self.old) }
        ensures refused { IfErr result (IsRefusal self.old count) }
        ensures err { OnErr result (self.new ≡ self.old) }
        ensures apart { IsSpace self.new }

        // It begins at or before the end of what is reserved, and room behind that end is enough.
        ensures near { IfOk result (λ e. e.first ≤ reserved_end self.old.reserved) }
        ensures enough { reserved_end self.old.reserved + count ≤ self.old.pages → IfErr result (λ fault. fault ≡ SpaceFault.OutOfMemory) }
    {
        match self.first_fit(count) {
            Some(first) => {
                let extent = Extent {
                    first,
                    pages: count,
                };
                match self.take(extent) {
                    Ok(()) => Ok(extent),
                    Err(_) => Err(SpaceFault::OutOfMemory),
                }
            }
            None => Err(SpaceFault::NoRun {
                need: count,
                longest: self.longest(),
            }),
        }
    }

    /// Reserves an extent that is free. After a refusal the map is as before.
    pub fn take(&mut self, e: Extent) -> Result<(), AllocError>
        requires some { 1 ≤ e.pages }
        requires free { IsFreeRun self.old e.first e.pages }
        ensures ok { OnOk result (self.new ≡ reserved_with e self.old) }
        ensures err { OnErr result (self.new ≡ self.old) }
        ensures apart { IsSpace self.new }
    {
        let at = place_of(&self.reserved, self.pages, e.first);
        self.reserved.insert(at, e)?;
        Ok(())
    }

    /// Whether this extent is reserved, as it was reserved.
    pub fn has(&self, e: Extent) -> bool
        ensures { IsTrue result ↔ Contains self.now.reserved e }
    {
        self.reserved.contains(&e)
    }

    /// Frees a reserved extent: its pages, and no others. Runs that were free on both sides of it are one run then.
    pub fn release(&mut self, e: Extent)
        requires { Contains self.old.reserved e }
        ensures released { self.new ≡ released_from e self.old }
        ensures apart { IsSpace self.new }
        ensures pages { (page : ℕ) → is_reserved self.new.reserved page ≡ (is_reserved self.old.reserved page && not (is_in page e)) }
        ensures joined { (from upto : ℕ) → from ≤ e.first → end_of e ≤ upto → IsFreeRun self.old from (e.first - from)
            → IsFreeRun self.old (end_of e) (upto - end_of e) → IsFreeRun self.new from (upto - from) }
    {
        let at = place_of(&self.reserved, self.pages, e.first);
        self.reserved.remove(at);
    }

    /// The number of pages of the longest free run.
    pub fn longest(&self) -> u32
        ensures longest { IsLongest self.now result }
        ensures apart { IsSpace self.now }
    {
        longest_gap(&self.reserved, self.pages)
    }

    /// The pages of the device.
    pub fn pages(&self) -> u32
        ensures { result ≡ self.now.pages }
    {
        self.pages
    }

    // Where the first free run of so many pages begins.
    fn first_fit(&self, count: u32) -> Option<u32>
        requires { 1 ≤ count }
        ensures { MatchOption result ((from : ℕ) → ¬ (IsFreeRun self.now from count)) (IsFirstFit self.now count) }
    {
        first_gap(&self.reserved, self.pages, count)
    }
}

ghost use Rattle.space_map.specs.Space.{IsFreeIn};
ghost use Rattle.space_map.specs.Calls.{AreApart};

// How many extents begin before a page.
fn place_of(extents: &[Extent], end: u32, first: u32) -> usize
    requires { AreApart FIRST_DATA_PAGE end extents.now }
    ensures bound { result ≤ length extents.now }
    ensures before { (k : ℕ) (d : Extent) → k < result → (slice_index_or extents.now k d).first < first }
    ensures behind { (k : ℕ) (d : Extent) → result ≤ k → k < length extents.now → first ≤ (slice_index_or extents.now k d).first }
{
    extents.partition_point(|extent| extent.first < first)
}

// Where the first gap of so many pages begins, between extents or behind the last one.
fn first_gap(extents: &[Extent], end: u32, count: u32) -> Option<u32>
    requires apart { AreApart FIRST_DATA_PAGE end extents.now }
    requires some { 1 ≤ count }
    ensures { MatchOption result ((from : ℕ) → ¬ (IsFreeIn FIRST_DATA_PAGE end extents.now from count))
        (λ from. IsFreeIn FIRST_DATA_PAGE end extents.now from count
        × ((before : ℕ) → before < from → ¬ (IsFreeIn FIRST_DATA_PAGE end extents.now before count))) }
{
    let mut from = FIRST_DATA_PAGE;
    for extent in extents {
        if extent.first - from >= count {
            return Some(from);
        }
        from = extent.first + extent.pages;
    }
    if end - from >= count {
        Some(from)
    } else {
        None
    }
}

// The pages of the longest gap.
fn longest_gap(extents: &[Extent], end: u32) -> u32
    requires { AreApart FIRST_DATA_PAGE end extents.now }
    ensures found { (from : ℕ) × IsFreeIn FIRST_DATA_PAGE end extents.now from result }
    ensures longest { (from count : ℕ) → IsFreeIn FIRST_DATA_PAGE end extents.now from count → count ≤ result }
{
    let mut from = FIRST_DATA_PAGE;
    let mut longest = 0;
    for extent in extents {
        longest = longest.max(extent.first - from);
        from = extent.first + extent.pages;
    }
    longest.max(end - from)
}
