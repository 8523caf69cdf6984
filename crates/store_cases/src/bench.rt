// A device at rest with the steps that a store on it is to take, and lists without a device.

use crate::lists::empty;
use crate::steps::{Answer, Played, Step, Told, answers_at, formatted, play, refused};
use dev_model::Device;
use mem_device::{MemDevice, Torn};
use std::alloc::Global;
use store_opening::OpenFault;
use store_state::State;

#[derive(Drop)]
pub struct Bench {
    alloc: Global,
    device: Option<MemDevice>,
    steps: Vec<Step>,
    lists: Option<State>,
}

/// What a store told that has taken its steps.
#[derive(Drop)]
pub struct Report {
    pub told: Told,
    /// How many device calls before the end each ack stands.
    pub acks: Vec<u64>,
    /// The bits of the declared indexes.
    pub declared: u8,
}

impl Bench {
    pub fn new(alloc: Global) -> Bench {
        Bench {
            alloc,
            device: None,
            steps: Vec::new(alloc),
            lists: None,
        }
    }

    /// Begins with a formatted device.
    pub fn format(&mut self, room: usize, fail: &[u64]) -> Option<()> {
        self.forget_steps();
        self.device = Some(formatted(self.alloc, room, fail)?);
        Some(())
    }

    pub fn forget_steps(&mut self) {
        self.steps = Vec::new(self.alloc);
    }

    pub fn add(&mut self, step: Step) -> Option<()> {
        self.steps.push(step).ok()
    }

    /// Adds a put of each key from this one on, at the x of the same number.
    pub fn add_puts(&mut self, from: u16, count: u16) -> Option<()> {
        for i in 0..count {
            let key = from.wrapping_add(i);
            self.add(Step::Put(u64::from(key), key))?;
        }
        Some(())
    }

    /// Adds a flush of one row for each key from this one on.
    pub fn add_flushes(&mut self, from: u16, count: u16) -> Option<()> {
        for i in 0..count {
            self.add_puts(from.wrapping_add(i), 1)?;
            self.add(Step::Freeze(1))?;
            self.add(Step::Flush)?;
        }
        Some(())
    }

    /// Opens the device, takes the steps, and keeps the device that the store gives back.
    pub fn play(&mut self) -> Option<Report> {
        let device = self.device.take()?;
        let Played {
            told,
            declared,
            mut acks,
            device,
        } = play(self.alloc, device, &self.steps)?;
        let end = device.clock();
        for ack in acks.iter_mut() {
            *ack = end.wrapping_sub(*ack);
        }
        self.device = Some(device);
        Some(Report {
            told,
            acks,
            declared: declared.bits(),
        })
    }

    /// The answers of the steps on what a crash leaves that comes so many calls before the device's clock.
    pub fn crash(&self, calls: u64, torn: Torn) -> Option<Vec<Answer>> {
        let device = self.device.as_ref()?;
        let moment = device.clock().checked_sub(calls)?;
        answers_at(self.alloc, device, moment, torn, &self.steps)
    }

    /// Changes a byte of the device.
    pub fn poke(&mut self, at: u64, byte: u8) -> Option<()> {
        let device = self.device.as_mut()?;
        if at >= u64::from(device.pages()) * 4096 {
            return None;
        }
        device.poke(at, byte);
        Some(())
    }

    /// Why the device isn't opened.
    pub fn refuse(&mut self) -> Option<OpenFault> {
        let device = self.device.take()?;
        let (device, fault) = refused(self.alloc, device)?;
        self.device = Some(device);
        Some(fault)
    }

    /// Begins with the lists of an empty store, which have no device.
    pub fn empty_lists(&mut self) -> Option<()> {
        self.lists = Some(empty(self.alloc)?);
        Some(())
    }

    pub fn lists_mut(&mut self) -> Option<&mut State> {
        self.lists.as_mut()
    }

    pub fn clock(&self) -> Option<u64> {
        Some(self.device.as_ref()?.clock())
    }
}
