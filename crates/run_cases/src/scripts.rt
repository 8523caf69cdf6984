// The text of a script, as the lines of a case spell it: `\n`, `\r` and `\t` stand for the bytes that they name in Rust.

use std::alloc::Global;

#[derive(Drop)]
pub struct ScriptText {
    alloc: Global,
    bytes: Vec<u8>,
}

// The byte that stands behind a backslash.
fn named_byte(name: u8) -> u8 {
    match name {
        b'n' => b'\n',
        b'r' => b'\r',
        b't' => b'\t',
        other => other,
    }
}

impl ScriptText {
    pub fn new(alloc: Global) -> ScriptText {
        ScriptText {
            alloc,
            bytes: Vec::new(alloc),
        }
    }

    pub fn bytes(&self) -> &[u8] {
        self.bytes.as_slice()
    }

    pub fn clear(&mut self) {
        self.bytes.clear();
    }

    /// Adds a text. Each `@` of it is this number.
    pub fn add(&mut self, text: &str, number: u64) -> Option<()> {
        let mut is_named = false;
        for byte in text.bytes() {
            match byte {
                b'\\' if !is_named => is_named = true,
                b'@' => self.add_number(number)?,
                _ => {
                    let kept = if is_named { named_byte(byte) } else { byte };
                    self.bytes.push(kept).ok()?;
                    is_named = false;
                }
            }
        }
        Some(())
    }

    fn add_number(&mut self, number: u64) -> Option<()> {
        let digits = format!(in self.alloc; "{number}").ok()?;
        self.bytes.extend_from_slice(digits.as_bytes()).ok()
    }
}
