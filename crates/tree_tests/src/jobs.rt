//! Jobs on a device in memory, and what readers find there in the end.

ghost use Rattle.std.specs.Prelude.{◌≡◌, length, IfOk};
ghost use Rattle.tree_tests.specs.declared.jobs.TheConstants.{FIRST};

use crate::mem_pages::MemPages;
use crate::primary_rows::{look, numbered, scanned};
use build_job::{BuildJob, Interval, JobPlan, JobStep};
use comp_dir::Slot;
use dev_model::PageFault;
use geo_base::MOST_KEY;
use page_codec::PAGE_BYTES;
use primary_ix::need;
use space_map::Extent;
use std::alloc::{AllocError, Global};
use std::test::Fail;
use tree_shape::TreeRef;

// The page at which each extent begins.
const FIRST: u32 = 300;

// A flush of so many rows.
fn flush(alloc: Global, rows: u32) -> Result<BuildJob, AllocError>
    ensures { IfOk result (λ job. length job.rows ≡ rows) }
{
    let list = numbered(alloc, rows)?;
    let extent = Extent {
        first: FIRST,
        pages: need(rows),
    };
    let plan = JobPlan {
        index: 0,
        extent,
        slot: 4,
    };
    let interval = Interval {
        first_lsn: 11,
        last_lsn: 12,
    };
    Ok(BuildJob::flush(list, plan, interval, 100))
}

// Writes the next page of a job, and says which one it is.
fn write_next(job: &mut BuildJob, device: &mut MemPages) -> Option<u32> {
    match job.step() {
        JobStep::Done => None,
        JobStep::Write(page) => {
            let mut buf = [9; PAGE_BYTES];
            job.page(&mut buf);
            device.put(page, &buf);
            job.wrote();
            Some(page)
        }
    }
}

// A device of 400 pages, and the job's pages on it. How many these are, or `None` where they don't come in order.
fn written(alloc: Global, job: &mut BuildJob) -> Result<(MemPages, Option<u32>), AllocError> {
    let mut pages = Vec::new(alloc);
    for _i in 0..400 {
        pages.push([9; PAGE_BYTES])?;
    }
    let mut device = MemPages::new(pages);
    for n in 0..400 {
        match write_next(job, &mut device) {
            None => return Ok((device, Some(n))),
            Some(page) => {
                if page != FIRST + n {
                    return Ok((device, None));
                }
            }
        }
    }
    Ok((device, None))
}

// The tree of so many rows.
fn tree(rows: u32) -> TreeRef
    ensures { result ≡ record { first = FIRST; rows = rows } }
{
    TreeRef { first: FIRST, rows }
}

// How many keys are found of so many rows, and of the keys behind them.
fn found_keys(device: &mut MemPages, rows: u32) -> Result<(u32, u32), PageFault> {
    let mut there = 0_u32;
    let mut others = 0_u32;
    for i in 0..rows {
        let key = u64::from(i) * 3 + 1;
        if look(device, tree(rows), key)? == Some(key) {
            there = there.saturating_add(1);
        }
        if look(device, tree(rows), key + 1)?.is_some() {
            others = others.saturating_add(1);
        }
    }
    Ok((there, others))
}

// How many rows a scan of all keys gives.
fn found_rows(alloc: Global, device: &mut MemPages, rows: u32) -> Result<usize, PageFault> {
    let mut out = Vec::new(alloc);
    scanned(device, tree(rows), &[(0, MOST_KEY)], &mut out)?;
    Ok(out.len())
}

// The slot of a job that is done.
fn slot_of(job: &BuildJob) -> Option<Slot> {
    match job.step() {
        JobStep::Done => Some(job.slot()),
        JobStep::Write(_) => None,
    }
}

// What the slot of a component with so many rows and pages has to be.
fn wanted_slot(rows: u32, pages: u32) -> Slot {
    Slot {
        index: 0,
        first: FIRST,
        pages,
        first_lsn: 11,
        last_lsn: 12,
        main_rows: rows,
        second_rows: 0,
        second_at: 0,
        filter_at: 0,
        filter_bits: 0,
        table_rows: 100,
    }
}

#[test]
fn a_flush_writes_pages_that_readers_find(rt: HostRuntime) -> Result<(), Fail> {
    // Rows, and the pages of their tree: 52 rows a leaf, and a root above where there are more leaves than one.
    let table = [(0, 1), (1, 1), (52, 1), (53, 3), (2048, 41)];
    for (rows, pages) in table {
        let mut job = flush(rt.alloc(), rows)?;
        let (mut device, count) = written(rt.alloc(), &mut job)?;
        assert_eq!(rt; count, Some(pages), "{rows} rows");
        assert_eq!(rt;
            slot_of(&job),
            Some(wanted_slot(rows, pages)),
            "{rows} rows"
        );
        assert_eq!(rt; found_keys(&mut device, rows), Ok((rows, 0)), "{rows} rows");
        assert_eq!(rt;
            found_rows(rt.alloc(), &mut device, rows),
            Ok(rows as usize),
            "{rows} rows"
        );
        assert_eq!(rt; job.plan().slot, 4, "{rows} rows");
    }
    Ok(())
}
