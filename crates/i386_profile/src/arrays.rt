//! Arrays of bytes as segments.

use crate::segment::{Outside, Segment};

impl<const N: usize> Segment for [u8; N] {
    ghost bytes = { λ s. s };

    fn load8(&self, at: u32) -> Result<u8, Outside> {
        let at = at as usize;
        if at + 1 <= self.len() {
            Ok(self[at])
        } else {
            Err(Outside)
        }
    }

    fn load32(&self, at: u32) -> Result<u32, Outside> {
        let at = at as usize;
        if at + 4 <= self.len() {
            Ok(u32::from_le_bytes([self[at], self[at + 1], self[at + 2], self[at + 3]]))
        } else {
            Err(Outside)
        }
    }

    fn store8(&mut self, at: u32, value: u8) -> Result<(), Outside> {
        let at = at as usize;
        if at + 1 <= self.len() {
            self[at] = value;
            Ok(())
        } else {
            Err(Outside)
        }
    }

    fn store32(&mut self, at: u32, value: u32) -> Result<(), Outside> {
        let at = at as usize;
        if at + 4 <= self.len() {
            let number = value.to_le_bytes();
            let bytes = &mut self[..];
            bytes[at..at + 4].copy_from_slice(&number);
            Ok(())
        } else {
            Err(Outside)
        }
    }
}
