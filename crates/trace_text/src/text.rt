//! A text in the making: lines of fields, each field parted from the one before by a space.

ghost use Rattle.std.specs.Prelude.{◌≡◌, ◌∷◌, ◌++◌, ◌<◌, [], decimal, OnOk};
ghost use Rattle.trace_text.specs.declared.limits.TheConstants.{SPACE, LINE_FEED};
ghost use Rattle.trace_text.specs.Text.{line};

use crate::limits::ZERO;
use itoa::Buffer;
use std::alloc::{AllocError, Global};
use std::marker::Model;

/// A text in the making, which contracts see as its bytes. A call that finds no memory may leave a
/// part of its piece behind.
#[derive(Drop)]
pub struct Text {
    written: String,
}

impl Model for Text {
    ghost use Rattle.std.specs.Prelude.{ℕ, List, string_bytes};

    ghost Value = { List ℕ };

    ghost view = { λ a. string_bytes a.written };
}

impl Text {
    /// No byte yet.
    pub fn new(alloc: Global) -> Self
        ensures { result ≡ [] }
    {
        Text {
            written: String::new(alloc),
        }
    }

    /// The first field of a line.
    #[inline(always)]
    pub fn begin(&mut self, word: &str) -> Result<(), AllocError>
        ensures { OnOk result (self.new ≡ self.old ++ word.now) }
    {
        self.written.push_str(word)
    }

    /// One more field of the line.
    pub fn word(&mut self, word: &str) -> Result<(), AllocError>
        ensures { OnOk result (self.new ≡ self.old ++ SPACE ∷ word.now) }
    {
        self.written.push(' ')?;
        self.written.push_str(word)?;
        Ok(())
    }

    /// One more field of the line, which is a digit.
    #[inline(always)]
    fn digit(&mut self, digit: u8) -> Result<(), AllocError>
        requires { digit < 10 }
        ensures { OnOk result (self.new ≡ self.old ++ SPACE ∷ decimal digit) }
    {
        self.written.push(' ')?;
        self.written.push(char::from(ZERO + digit))?;
        Ok(())
    }

    /// One more field of the line.
    pub fn number(&mut self, number: u64) -> Result<(), AllocError>
        ensures { OnOk result (self.new ≡ self.old ++ SPACE ∷ decimal number) }
    {
        if number < 10 {
            return self.digit(number as u8);
        }
        let mut buffer = Buffer::new();
        self.word(buffer.format(number))
    }

    /// The end of the line.
    #[inline(always)]
    pub fn end_line(&mut self) -> Result<(), AllocError>
        ensures { OnOk result (self.new ≡ self.old ++ LINE_FEED ∷ []) }
    {
        self.written.push_str("\n")
    }

    /// A line of one field, or of several that a space parts already.
    #[inline(always)]
    pub fn line(&mut self, words: &str) -> Result<(), AllocError>
        ensures { OnOk result (self.new ≡ self.old ++ line (words.now ∷ [])) }
    {
        self.begin(words)?;
        self.end_line()
    }

    /// A line of a word and a number.
    #[inline(always)]
    pub fn line_with(&mut self, word: &str, number: u64) -> Result<(), AllocError>
        ensures { OnOk result (self.new ≡ self.old ++ line (word.now ∷ decimal number ∷ [])) }
    {
        self.begin(word)?;
        self.number(number)?;
        self.end_line()
    }

    /// A line of a word and two numbers.
    pub(crate) fn line_with_two(
        &mut self,
        word: &str,
        first: u64,
        second: u64,
    ) -> Result<(), AllocError>
        ensures { OnOk result (self.new
            ≡ self.old ++ line (word.now ∷ decimal first ∷ decimal second ∷ [])) }
    {
        self.begin(word)?;
        self.number(first)?;
        self.number(second)?;
        self.end_line()
    }

    /// A line of a word and three numbers.
    pub(crate) fn line_with_three(
        &mut self,
        word: &str,
        first: u64,
        second: u64,
        third: u64,
    ) -> Result<(), AllocError>
        ensures { OnOk result (self.new
            ≡ self.old ++ line (word.now ∷ decimal first ∷ decimal second ∷ decimal third ∷ [])) }
    {
        self.begin(word)?;
        self.number(first)?;
        self.number(second)?;
        self.number(third)?;
        self.end_line()
    }

    /// The bytes of the text.
    pub fn into_bytes(self) -> Vec<u8>
        ensures { result.items ≡ self }
    {
        let Text { written } = self;
        written.into_bytes()
    }
}
