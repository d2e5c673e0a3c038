// The words of an answer, as the data files write them: parted by one space, bytes as two hex digits each.
ghost use Rattle.std.specs.Iterator.{IsFinite};

use field::gf256::Gf256;
use std::alloc::{AllocError, Global};
use std::fmt::Display;

// What is written as two hex digits.
pub(crate) trait TwoDigits: Copy {
    fn byte(self) -> u8;
}

impl TwoDigits for u8 {
    fn byte(self) -> u8 {
        self
    }
}

impl TwoDigits for Gf256 {
    fn byte(self) -> u8 {
        self.value
    }
}

#[derive(Drop)]
pub(crate) struct Answer {
    text: String,
}

impl Answer {
    pub(crate) fn new(heap: Global) -> Answer {
        Answer {
            text: String::new(heap),
        }
    }

    pub(crate) fn heap(&self) -> Global {
        *self.text.allocator()
    }

    pub(crate) fn into_text(self) -> String {
        let Answer { text } = self;
        text
    }

    fn begin_word(&mut self) -> Result<(), AllocError> {
        if !self.text.is_empty() {
            self.text.push(' ')?;
        }
        Ok(())
    }

    pub(crate) fn write_word<W: Display + Drop>(&mut self, word: W) -> Result<(), AllocError> {
        self.begin_word()?;
        write!(self.text, "{word}")
    }

    // A word for each part.
    pub(crate) fn write_parts<'a, B: TwoDigits + 'a, I: Iterator<Item = &'a [B]>>(
        &mut self,
        parts: I,
    ) -> Result<(), AllocError>
        requires can { I.can_next parts }
        requires ends { IsFinite (I.remaining parts) }
    {
        for part in parts {
            self.begin_word()?;
            for entry in part {
                write!(self.text, "{:02x}", entry.byte())?;
            }
        }
        Ok(())
    }
}
