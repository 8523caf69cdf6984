// A script from a source, piece by piece.
ghost use Rattle.std.specs.Prelude.{◌≡◌, ℕ, List, ◌+◌, ◌<◌, ◌≤◌, ◌++◌, [], length, take, OnOk, IfOk, MatchOption};
ghost use Rattle.line_fold.specs.Laws.Cuts.{HasNoFeed};
ghost use Rattle.script_lang.specs.Grammar.{meaning_of};
ghost use Rattle.script_lang.specs.Reader.{Leaves, Behind, TakesPiece, IsFeedAt, after_part, after_end, after_input, added};
ghost use Rattle.script_lang.specs.Faults.{ReadsFrom, CountsFaults};
ghost use Rattle.script_lang.specs.Scripts.{first_reading};
ghost use Rattle.script_lang.specs.CommandViews.{phases_of, meaning_as};

use crate::commands::{CommandList, LaneList, Script, ScriptFault};
use crate::limits::{MOST_BYTES, MOST_COMMANDS, MOST_LINE};
use crate::lines::{Meaning, line_meaning};
use dev_model::Source;
use std::alloc::Global;
use std::marker::Model;

// A line is bad from this length on, however it goes on: one byte past the limit, and a carriage return.
const FRONT: usize = MOST_LINE + 2;

const PIECE: usize = 4096;

// A script that is being read: what its lines gave, the front of the open line, and how many bytes were read.
#[derive(Drop)]
struct Reader {
    commands: CommandList,
    lines: u64,
    front: [u8; FRONT],
    len: usize,
    bytes: u64,
}

impl Model for Reader {
    ghost use Rattle.std.specs.Prelude.{◌+◌, ◌≤◌, [], take, length};
    ghost use Rattle.line_fold.specs.Laws.Streaming.{Progress};
    ghost use Rattle.script_lang.specs.Scripts.{Reading};
    ghost use Rattle.script_lang.specs.CommandViews.{commands_of};
    ghost use Rattle.script_lang.specs.declared.limits.TheConstants.{MOST_BYTES};
    ghost use Rattle.script_lang.specs.declared.reading.TheConstants.{FRONT};

    ghost Value = { Progress Reading };

    ghost view = { λ r. record {
      state = record {
        lines = r.lines;
        commands = length r.commands.items;
        script = record { setup = commands_of r.commands.items; lanes = []; after = [] };
      };
      line = take r.len r.front;
      bytes = r.bytes;
    } };

    ghost invariant = { λ r. (r.len ≤ FRONT) × (r.lines + r.len ≤ r.bytes) × (r.bytes ≤ MOST_BYTES) };
}

impl Reader {
    fn new(alloc: Global) -> Self
        ensures { result ≡ record { state = first_reading; line = []; bytes = 0 } }
    {
        Reader {
            commands: CommandList::new(alloc),
            lines: 0,
            front: [0; FRONT],
            len: 0,
            bytes: 0,
        }
    }
}

impl Reader {
    // Keeps the front of these bytes of the open line, as far as there is room for it.
    fn keep(&mut self, part: &[u8])
        requires { self.old.bytes + length part.now ≤ MOST_BYTES }
        ensures { self.new ≡ record { state = self.old.state; line = take FRONT (self.old.line ++ part.now); bytes = self.old.bytes + length part.now } }
    {
        let n = part.len().min(FRONT - self.len);
        self.front[self.len..self.len + n].copy_from_slice(&part[..n]);
        self.len += n;
        self.bytes += part.len() as u64;
    }

    // Bytes of the open line that don't end it.
    #[tactic(auto, unfolding(crate::specs::Reader::after_part))]
    fn take_part(&mut self, part: &[u8]) -> Result<(), ScriptFault>
        ensures exact { Leaves self.new result (after_part FRONT MOST_BYTES self.old part.now) }
        ensures counted { OnOk result (self.new.bytes ≡ self.old.bytes + length part.now) }
        ensures within { self.new.bytes ≤ MOST_BYTES }
    {
        if part.len() as u64 > MOST_BYTES - self.bytes {
            return Err(ScriptFault::TooLong);
        }
        self.keep(part);
        Ok(())
    }

    // What a line says that ends with these bytes and a line feed. The next line is open then.
    fn close_line(&mut self, part: &[u8]) -> Meaning
        requires { self.old.bytes + length part.now < MOST_BYTES }
        ensures meaning { meaning_as result ≡ meaning_of (self.old.line ++ part.now) }
        ensures next { self.new ≡ record { state = self.old.state; line = []; bytes = self.old.bytes + length part.now + 1 } }
    {
        if self.len == 0 {
            self.bytes += part.len() as u64 + 1;
            return line_meaning(part);
        }
        self.keep(part);
        let meaning = line_meaning(&self.front[..self.len]);
        self.len = 0;
        self.bytes += 1;
        meaning
    }

    fn add(&mut self, meaning: Meaning) -> Result<(), ScriptFault>
        requires room { self.old.state.lines < self.old.bytes }
        requires closed { self.old.line ≡ [] }
        ensures exact { Leaves self.new result (added MOST_COMMANDS self.old (meaning_as meaning)) }
        ensures within { self.new.bytes ≡ self.old.bytes }
    {
        match meaning {
            Meaning::Nothing => {}
            Meaning::Step(command) => {
                if self.commands.len() >= MOST_COMMANDS {
                    return Err(ScriptFault::TooLong);
                }
                if self.commands.reserve(1).is_err() {
                    return Err(ScriptFault::OutOfMemory);
                }
                self.commands.add(command);
            }
            Meaning::Bad => return Err(ScriptFault::BadLine(self.lines + 1)),
        }
        self.lines += 1;
        Ok(())
    }

    #[tactic(auto, unfolding(crate::specs::Reader::after_end, crate::specs::Scripts::after_line))]
    fn end_line(&mut self, part: &[u8]) -> Result<(), ScriptFault>
        ensures exact { Leaves self.new result (after_end MOST_BYTES MOST_COMMANDS self.old part.now) }
        ensures counted { OnOk result (self.new.bytes ≡ self.old.bytes + length part.now + 1) }
        ensures within { self.new.bytes ≤ MOST_BYTES }
    {
        if part.len() as u64 >= MOST_BYTES - self.bytes {
            return Err(ScriptFault::TooLong);
        }
        let meaning = self.close_line(part);
        self.add(meaning)
    }

    fn take_piece(&mut self, piece: &[u8]) -> Result<(), ScriptFault>
        ensures exact { (read : List ℕ) → Behind FRONT MOST_COMMANDS read self.old
            → TakesPiece FRONT MOST_BYTES MOST_COMMANDS read piece.now self.new result }
        ensures counted { OnOk result (self.new.bytes ≡ self.old.bytes + length piece.now) }
        ensures within { self.new.bytes ≤ MOST_BYTES }
    {
        // The loop needs the bound on the bytes, which a look at them gives.
        let _bytes = self.bytes;
        let mut rest = piece;
        while let Some(at) = feed_place(rest) {
            if let Err(e) = self.end_line(&rest[..at]) {
                return Err(e);
            }
            rest = &rest[at + 1..];
        }
        self.take_part(rest)
    }

    #[tactic(auto, unfolding(crate::specs::Reader::after_input, crate::specs::Scripts::after_line))]
    fn end_input(&mut self) -> Result<(), ScriptFault>
        ensures exact { Leaves self.new.state result (after_input MOST_COMMANDS self.old) }
    {
        if self.len == 0 {
            return Ok(());
        }
        let meaning = line_meaning(&self.front[..self.len]);
        self.len = 0;
        self.add(meaning)
    }

    fn into_script(self, alloc: Global) -> Script
        ensures alone { (result.lanes.items ≡ []) × (result.after.items ≡ []) }
        ensures script { phases_of result ≡ self.state.script }
    {
        Script {
            setup: self.commands,
            lanes: LaneList::new(alloc),
            after: CommandList::new(alloc),
        }
    }
}

// Where the first line feed is.
fn feed_place(bytes: &[u8]) -> Option<usize>
    ensures { MatchOption result (HasNoFeed bytes.now) (IsFeedAt bytes.now) }
{
    bytes.iter().position(|b| *b == b'\n')
}

/// Reads a script to its end, or to the first thing that is wrong with it.
///
/// `Source` where a read failed. `BadLine(n)` where line `n`, counted from 1, is the first outside the language and
/// ended within `MOST_BYTES` bytes; `TooLong` where a command past `MOST_COMMANDS` or a byte past `MOST_BYTES` comes
/// before such a line. Besides the commands one line is held.
pub fn read_script<R: Source>(alloc: Global, src: &mut R) -> Result<Script, ScriptFault>
    // Of a source that tells its bytes, it is the script of these.
    ensures exact { ReadsFrom MOST_BYTES MOST_COMMANDS (R.left src.old) result }
    // Until lanes come all commands are the setup.
    ensures alone { IfOk result (λ s. (s.lanes.items ≡ []) × (s.after.items ≡ [])) }
    // It is a fault of the source where the source's count rose, and nowhere else.
    ensures counts { CountsFaults (R.fault_count src.old) (R.fault_count src.new) result }
{
    let mut reader = Reader::new(alloc);
    let mut piece = [0u8; PIECE];
    loop {
        let n = match src.read(&mut piece) {
            Ok(n) => n,
            Err(_) => return Err(ScriptFault::Source),
        };
        if n == 0 {
            if let Err(e) = reader.end_input() {
                return Err(e);
            }
            return Ok(reader.into_script(alloc));
        }
        if let Err(e) = reader.take_piece(&piece[..n]) {
            return Err(e);
        }
    }
}
