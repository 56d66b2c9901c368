// The fields that a reader takes from the front.
ghost use Rattle.std.specs.Prelude.{◌≤◌, IfOk};
ghost use Rattle.wire_fields.specs.Reading.{chunk_at, byte_at, word_at, long_at, signed_at, count_at, close_at};
ghost use Rattle.wire_fields.specs.Readers.{Takes};

use crate::reader::Reader;
use slip::{Refusal, Slip};

impl<'a> Reader<'a> {
    // The next N bytes.
    fn chunk<const N: usize>(&mut self) -> Result<[u8; N], Slip>
        ensures { Takes (chunk_at N) self.old self.new result }
    {
        let place = self.at;
        let Some(chunk) = self.bytes[place..].first_chunk::<N>() else {
            return Err(Refusal::Truncated.at(place));
        };
        self.at += N;
        Ok(*chunk)
    }

    pub fn byte(&mut self) -> Result<u8, Slip>
        ensures { Takes byte_at self.old self.new result }
    {
        let [byte] = self.chunk::<1>()?;
        Ok(byte)
    }

    pub fn word(&mut self) -> Result<u16, Slip>
        ensures { Takes word_at self.old self.new result }
    {
        let bytes = self.chunk()?;
        Ok(u16::from_be_bytes(bytes))
    }

    pub fn long(&mut self) -> Result<u32, Slip>
        ensures { Takes long_at self.old self.new result }
    {
        let bytes = self.chunk()?;
        Ok(u32::from_be_bytes(bytes))
    }

    pub fn signed(&mut self) -> Result<i32, Slip>
        ensures { Takes signed_at self.old self.new result }
    {
        let word = self.word()?;
        Ok(i32::from(word.cast_signed()))
    }

    // A number of records.
    pub fn count(&mut self, least: u16, most: u16) -> Result<u16, Slip>
        ensures reads { Takes (count_at least most) self.old self.new result }
        ensures some { IfOk result (λ n. least ≤ n) }
        ensures small { IfOk result (λ n. n ≤ most) }
    {
        let place = self.at;
        let n = self.word()?;
        if (least..=most).contains(&n) {
            Ok(n)
        } else {
            Err(Refusal::BadCount.at(place))
        }
    }

    // Refuses bytes after the last record.
    pub fn close(&mut self) -> Result<(), Slip>
        ensures { Takes close_at self.old self.new result }
    {
        let surplus = self.at;
        if surplus == self.bytes.len() {
            Ok(())
        } else {
            Err(Refusal::Surplus.at(surplus))
        }
    }
}
