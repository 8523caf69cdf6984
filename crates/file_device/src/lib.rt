//! A device on a file of the operating system.
#![tactic(auto)]

ghost use Rattle.std.specs.Prelude.{◌≡◌, ◌+◌, ◌-◌, ◌^◌, ◌<◌, ◌↔◌, None, OnOk, IfOk, IsOk, IsTrue};
ghost use Rattle.dev_model.specs.Counts.{HasCause, next_count};

use dev_model::{Device, Failed};
use std::fs::{File, Files, OpenOptions};
use std::io;
use std::marker::Model;
use std::os::unix::fs::FileExt;

/// The first pages of a file, by positioned reads and writes. It tells no content.
#[derive(Drop)]
pub struct FileDevice {
    file: File,
    pages: u32,
    clock: u64,
    faults: u64,
    has_lost_writes: bool,
}

impl Model for FileDevice {
    ghost use Rattle.file_device.specs.File.{FileState};

    ghost Value = { FileState };

    ghost view = { λ d. record { pages = d.pages; clock = d.clock; faults = d.faults } };
}

impl FileDevice {
    /// Creates the file where there is none, and lengthens it with zero bytes where it has fewer pages. It takes an
    /// exclusive advisory lock before it looks at a byte, and fails where another open file has it. What stands in the
    /// file is on the disk when this returns.
    pub fn open<R: Files<File = File>>(files: &R, path: &str, pages: u32) -> io::Result<FileDevice>
        ensures { IfOk result (λ d. d ≡ record { pages = pages; clock = 0; faults = 0 }) }
    {
        let file = OpenOptions::new()
            .read(true)
            .write(true)
            .create(true)
            .open(files, path)?;
        file.try_lock()?;
        let length = u64::from(pages) * 4096;
        if file.metadata()?.len() < length {
            // The file's name has to last as long as its bytes.
            File::open(files, folder_of(path))?.sync_all()?;
            file.set_len(length)?;
        }
        file.sync_all()?;
        Ok(FileDevice {
            file,
            pages,
            clock: 0,
            faults: 0,
            has_lost_writes: false,
        })
    }

    // Counts a call that was made, and says how it ended.
    fn note(&mut self, succeeded: bool) -> Result<(), Failed>
        ensures ends { IsOk result ↔ (IsTrue succeeded × (self.old.clock < 2 ^ 64 - 1)) }
        ensures time { self.new.clock ≡ next_count self.old.clock }
        ensures ticks { OnOk result (self.new.clock ≡ self.old.clock + 1) }
        ensures same_pages { self.new.pages ≡ self.old.pages }
        ensures cause { HasCause self.old.faults self.new.faults result }
    {
        let in_time = self.clock < u64::MAX;
        self.clock = self.clock.saturating_add(1);
        if succeeded && in_time {
            Ok(())
        } else {
            self.faults = self.faults.saturating_add(1);
            Err(Failed)
        }
    }
}

impl Device for FileDevice {
    ghost use Rattle.dev_model.specs.Laws.Plans.{no_story};

    ghost seen = { λ d. record { pages = d.pages; clock = d.clock; faults = d.faults; story = None } };

    fn pages(&self) -> u32 {
        self.pages
    }

    fn clock(&self) -> u64 {
        self.clock
    }

    fn faults(&self) -> u64 {
        self.faults
    }

    fn read(&mut self, at: u64, buf: &mut [u8]) -> Result<(), Failed> {
        let succeeded = self.clock < u64::MAX && self.file.read_exact_at(buf, at).is_ok();
        self.note(succeeded)
    }

    fn write(&mut self, at: u64, bytes: &[u8]) -> Result<(), Failed> {
        let succeeded = self.clock < u64::MAX && self.file.write_all_at(bytes, at).is_ok();
        self.note(succeeded)
    }

    // After a sync that failed the system may forget what was not written, and a later sync would succeed without it.
    // So each later sync fails.
    fn sync(&mut self) -> Result<(), Failed> {
        let succeeded = self.clock < u64::MAX
            && !self.has_lost_writes
            && self.file.sync_data().is_ok();
        self.has_lost_writes = !succeeded;
        self.note(succeeded)
    }

    ghost clock_told = { λ _ s is. no_story s is };
}

// The folder of a file.
fn folder_of(path: &str) -> &str {
    match path.rsplit_once('/') {
        None => ".",
        Some(("", _)) => "/",
        Some((folder, _)) => folder,
    }
}
