// Stores in memory: the steps that they take, and what each of them tells.
ghost use Rattle.std.specs.Prelude.{◌≡◌, ◌≤◌, IfSome, IfOk, OnOk};
ghost use Rattle.build_job.specs.Steps.{steps_left};
ghost use Rattle.store_machine.specs.Calls.{IsReady};
ghost use Rattle.store_state.specs.OwnJob.{IsJobOf};
ghost use Rattle.store_core.specs.Stores.{state_of};

use build_job::{BuildJob, JobStep};
use dev_model::Device;
use device_format::format_dev;
use geo_base::{IndexKind, IndexSet, Note, Point, Rect, Row};
use mem_device::{MemDevice, Torn};
use space_map::{LEAST_PAGES, MOST_PAGES};
use std::alloc::Global;
use store_core::Store;
use store_machine::{Got, Look, Refusal, WriteOp, Wrote};
use store_opening::OpenFault;
use wal_log::LogOp;

/// Who makes each call.
const OWNER: u64 = 7;

#[derive(Clone, Copy, Debug)]
pub enum Step {
    /// A key, and x of its point.
    Put(u64, u16),
    Del(u64),
    Get(u64),
    Count,
    /// The rows whose points are in the square of side 9 at the origin.
    Region(IndexKind),
    Look,
    /// At how many writes.
    Freeze(u32),
    /// Begins a job, and lets it go.
    Begin,
    /// Begins a job, writes its pages and installs it.
    Flush,
}

#[derive(Clone, Copy, Debug)]
pub enum Answer {
    /// x of what stood at the key, how many writes wait, and how many device calls after the step began its ack stands, or
    /// `None` where the ack is 0.
    Wrote(Option<u16>, u32, Option<u64>),
    /// x of what stands at the key.
    Got(Option<u16>),
    Counted(u64),
    /// How many rows are inside.
    Inside(usize),
    /// How many writes wait, whether a list is frozen, and the numbers of the last write in a component and of the last one.
    Looked(u32, bool, u64, u64),
    Froze(bool),
    /// Whether a list waited.
    Begun(bool),
    /// How many pages were written, or `None` where no list waited.
    Flushed(Option<u32>),
    Refused(Refusal),
}

/// What steps came to, in their order.
#[derive(Drop)]
pub struct Told {
    pub answers: Vec<Answer>,
    /// How many device calls each step made.
    pub calls: Vec<u64>,
    /// The numbers of the answers that have one.
    pub seqs: Vec<u64>,
}

/// What steps on a store came to, and what the store gave back at its end.
#[derive(Drop)]
pub struct Played<D: Drop> {
    pub told: Told,
    pub declared: IndexSet,
    pub acks: Vec<u64>,
    pub device: D,
}

/// A device of 1,024 pages that is formatted, with the R-tree declared. It has room for so many written bytes, and the calls of
/// these numbers fail.
pub fn formatted(alloc: Global, room: usize, fail: &[u64]) -> Option<MemDevice>
    ensures { IfSome result (λ device. device.pages ≡ 1024) }
{
    let fail = fail.to_vec(alloc).ok()?;
    let mut device = MemDevice::new(alloc, 1024, 9000, room, fail).ok()?;
    let indexes = IndexSet::of_bits(1)?;
    format_dev(&mut device, indexes).ok()?;
    Some(device)
}

/// The store of a device, where it can be opened.
fn opened<D: Device + Drop>(alloc: Global, device: D) -> Option<Store<D>>
    ensures { IfSome result (λ store. IsReady (state_of D.seen store)) }
{
    if device.pages() < LEAST_PAGES || device.pages() > MOST_PAGES {
        return None;
    }
    Store::open(alloc, device).ok()
}

/// Why a device isn't opened, and the device that is given back.
pub fn refused<D: Device + Drop>(alloc: Global, device: D) -> Option<(D, OpenFault)> {
    if device.pages() < LEAST_PAGES || device.pages() > MOST_PAGES {
        return None;
    }
    Store::open(alloc, device).err()
}

/// What a write tells that began at this clock.
fn write_answer(wrote: Wrote, before: u64) -> Answer {
    let old = match wrote.old {
        Some((point, _)) => Some(point.x),
        None => None,
    };
    let ack = match wrote.ack {
        0 => None,
        ack => Some(ack.wrapping_sub(before)),
    };
    Answer::Wrote(old, wrote.ops, ack)
}

fn get_answer(got: Got) -> Answer {
    Answer::Got(match got.row {
        Some(row) => Some(row.point.x),
        None => None,
    })
}

fn look_answer(look: Look) -> Answer {
    Answer::Looked(look.ops, look.frozen, look.placed, look.lsn)
}

impl Told {
    fn new(alloc: Global) -> Told {
        Told {
            answers: Vec::new(alloc),
            calls: Vec::new(alloc),
            seqs: Vec::new(alloc),
        }
    }

    /// An answer without a number.
    fn plain(&mut self, answer: Answer) -> Option<()> {
        self.answers.push(answer).ok()
    }

    fn numbered(&mut self, answer: Answer, seq: u64) -> Option<()> {
        self.seqs.push(seq).ok()?;
        self.plain(answer)
    }

    fn refused(&mut self, refusal: Refusal) -> Option<()> {
        self.plain(Answer::Refused(refusal))
    }

    fn write<D: Device>(&mut self, store: &mut Store<D>, op: WriteOp) -> Option<()>
        requires { IsReady (state_of D.seen store.old) }
        ensures { IsReady (state_of D.seen store.new) }
    {
        let before = store.device().clock();
        match store.write(OWNER, &op) {
            Ok(wrote) => {
                let seq = wrote.seq;
                self.numbered(write_answer(wrote, before), seq)
            }
            Err(refusal) => self.refused(refusal),
        }
    }

    fn get<D: Device>(&mut self, store: &mut Store<D>, key: u64) -> Option<()>
        requires { IsReady (state_of D.seen store.old) }
        ensures { IsReady (state_of D.seen store.new) }
    {
        match store.get(OWNER, key) {
            Ok(got) => {
                let seq = got.seq;
                self.numbered(get_answer(got), seq)
            }
            Err(refusal) => self.refused(refusal),
        }
    }

    fn count<D: Device>(&mut self, store: &mut Store<D>) -> Option<()>
        requires { IsReady (state_of D.seen store.old) }
        ensures { IsReady (state_of D.seen store.new) }
    {
        let (seq, rows) = store.count(OWNER);
        self.numbered(Answer::Counted(rows), seq)
    }

    fn region<D: Device>(
        &mut self,
        alloc: Global,
        store: &mut Store<D>,
        kind: IndexKind,
    ) -> Option<()>
        requires { IsReady (state_of D.seen store.old) }
        ensures { IsReady (state_of D.seen store.new) }
    {
        let Ok(square) = Rect::new(0, 0, 9, 9) else {
            return None;
        };
        match store.region(alloc, OWNER, kind, &square) {
            Ok(found) => self.numbered(Answer::Inside(found.rows.len()), found.seq),
            Err(refusal) => self.refused(refusal),
        }
    }

    fn freeze<D: Device>(&mut self, store: &mut Store<D>, least: u32) -> Option<()>
        requires { IsReady (state_of D.seen store.old) }
        ensures { IsReady (state_of D.seen store.new) }
    {
        if least == 0 {
            return None;
        }
        match store.freeze(OWNER, least) {
            Ok(froze) => self.plain(Answer::Froze(froze)),
            Err(refusal) => self.refused(refusal),
        }
    }

    fn begin<D: Device>(&mut self, alloc: Global, store: &mut Store<D>) -> Option<()>
        requires { IsReady (state_of D.seen store.old) }
        ensures { IsReady (state_of D.seen store.new) }
    {
        match store.begin_job(alloc, OWNER) {
            Ok(job) => self.plain(Answer::Begun(job.is_some())),
            Err(refusal) => self.refused(refusal),
        }
    }

    fn flush<D: Device>(&mut self, alloc: Global, store: &mut Store<D>) -> Option<()>
        requires { IsReady (state_of D.seen store.old) }
        ensures { IsReady (state_of D.seen store.new) }
    {
        match flush(alloc, store) {
            Ok(pages) => self.plain(Answer::Flushed(pages)),
            Err(refusal) => self.refused(refusal),
        }
    }
}

/// Writes all pages of a job, and says how many.
fn write_pages<D: Device>(store: &mut Store<D>, job: &mut BuildJob) -> Result<u32, Refusal>
    requires ready { IsReady (state_of D.seen store.old) }
    requires begun { IsJobOf store.old.state.0 OWNER job.old }
    ensures ready { IsReady (state_of D.seen store.new) }
    ensures begun { IsJobOf store.new.state.0 OWNER job.new }
    ensures written { OnOk result (steps_left job.new ≡ 0) }
{
    let mut pages = 0u32;
    loop {
        match job.step() {
            JobStep::Write(_) => store.job_write(OWNER, job)?,
            JobStep::Done => return Ok(pages),
        }
        pages = pages.saturating_add(1);
    }
}

/// Writes the list that waits into a component, and says how many pages it has.
fn flush<D: Device>(alloc: Global, store: &mut Store<D>) -> Result<Option<u32>, Refusal>
    requires { IsReady (state_of D.seen store.old) }
    ensures { IsReady (state_of D.seen store.new) }
{
    let Some(job) = store.begin_job(alloc, OWNER)? else {
        return Ok(None);
    };
    let mut job = job;
    let pages = write_pages(store, &mut job)?;
    store.install(OWNER, &job)?;
    Ok(Some(pages))
}

/// Takes a step.
fn take<D: Device>(alloc: Global, store: &mut Store<D>, step: Step, told: &mut Told) -> Option<()>
    requires { IsReady (state_of D.seen store.old) }
    ensures { IsReady (state_of D.seen store.new) }
{
    match step {
        Step::Put(key, x) => {
            let Ok(note) = Note::new(b"a") else {
                return None;
            };
            let point = Point { x, y: 0 };
            told.write(store, LogOp::Put(Row { key, point, note }))
        }
        Step::Del(key) => told.write(store, LogOp::Del(key)),
        Step::Get(key) => told.get(store, key),
        Step::Count => told.count(store),
        Step::Region(kind) => told.region(alloc, store, kind),
        Step::Look => told.plain(look_answer(store.look(OWNER))),
        Step::Freeze(least) => told.freeze(store, least),
        Step::Begin => told.begin(alloc, store),
        Step::Flush => told.flush(alloc, store),
    }
}

/// Takes the steps.
fn take_all<D: Device>(alloc: Global, store: &mut Store<D>, steps: &[Step]) -> Option<Told>
    requires { IsReady (state_of D.seen store.old) }
    ensures { IsReady (state_of D.seen store.new) }
{
    let mut told = Told::new(alloc);
    for step in steps {
        let before = store.device().clock();
        take(alloc, store, *step, &mut told)?;
        let calls = store.device().clock().wrapping_sub(before);
        told.calls.push(calls).ok()?;
    }
    Some(told)
}

/// Opens a device, and takes the steps.
pub fn play<D: Device + Drop>(alloc: Global, device: D, steps: &[Step]) -> Option<Played<D>> {
    let mut store = opened(alloc, device)?;
    let told = take_all(alloc, &mut store, steps)?;
    let declared = store.declared();
    let acks = store.acks().to_vec(alloc).ok()?;
    let (device, kept) = store.into_dev();
    if kept.as_slice() != &acks[..] {
        return None;
    }
    Some(Played {
        told,
        declared,
        acks,
        device,
    })
}

/// The answers of the steps, after a crash.
pub fn answers_at(
    alloc: Global,
    device: &MemDevice,
    moment: u64,
    torn: Torn,
    steps: &[Step],
) -> Option<Vec<Answer>> {
    let image = device.image_at(moment, torn).ok()?;
    let Played { told, .. } = play(alloc, image, steps)?;
    Some(told.answers)
}
