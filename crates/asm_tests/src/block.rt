//! A segment of twelve bytes.

use i386_profile::{Outside, Segment};

/// The bytes from offset 0 on.
#[derive(Drop)]
pub(crate) struct Block {
    pub(crate) bytes: [u8; 12],
}

impl Segment for Block {
    ghost bytes = { λ s. s.bytes };

    fn load8(&self, at: u32) -> Result<u8, Outside> {
        let at = at as usize;
        if at + 1 <= self.bytes.len() {
            Ok(self.bytes[at])
        } else {
            Err(Outside)
        }
    }

    fn load32(&self, at: u32) -> Result<u32, Outside> {
        let at = at as usize;
        if at + 4 <= self.bytes.len() {
            Ok(u32::from_le_bytes([
                self.bytes[at],
                self.bytes[at + 1],
                self.bytes[at + 2],
                self.bytes[at + 3],
            ]))
        } else {
            Err(Outside)
        }
    }

    fn store8(&mut self, at: u32, value: u8) -> Result<(), Outside> {
        let at = at as usize;
        if at + 1 <= self.bytes.len() {
            self.bytes[at] = value;
            Ok(())
        } else {
            Err(Outside)
        }
    }

    fn store32(&mut self, at: u32, value: u32) -> Result<(), Outside> {
        let at = at as usize;
        if at + 4 <= self.bytes.len() {
            let number = value.to_le_bytes();
            self.bytes[at..at + 4].copy_from_slice(&number);
            Ok(())
        } else {
            Err(Outside)
        }
    }
}
