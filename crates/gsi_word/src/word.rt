//! One word of a block.

ghost use Rattle.std.specs.Prelude.{◌≡◌, ◌<◌};
ghost use Rattle.gsi_word.specs.Angles.{is_input_mode};
ghost use Rattle.gsi_word.specs.Layout.{word_of, HasIndex};

use crate::angle::{AngleFault, GON, LAST_UNIT};
use crate::decimal::decimal_number;
use crate::zeros::zeros_before;
use std::marker::Model;

/// Where the information of a word begins, after the two digits of its index.
pub(crate) const INFO: usize = 2;

/// Where the sign of a word stands, after four bytes of information.
pub(crate) const SIGN: usize = 6;

/// Where the content of a word begins, after the sign.
pub(crate) const CONTENT: usize = 7;

/// How many bytes the content of a word has in a GSI-8 line.
pub const GSI_8: usize = 8;

/// How many bytes the content of a word has in a GSI-16 line.
pub const GSI_16: usize = 16;

/// A word of a block: its bytes in the line.
#[derive(Debug, Drop)]
pub struct Word<'a> {
    pub(crate) bytes: &'a [u8],
}

impl<'a> Model for Word<'a> {
    ghost use Rattle.gsi_word.specs.Words.{GsiWord};
    ghost use Rattle.gsi_word.specs.Layout.{word_of, IsWholeWord};

    ghost Value = { GsiWord };

    ghost view = { λ w. word_of w.bytes.now };

    ghost invariant = { λ w. IsWholeWord w.bytes.now };
}

impl<'a> Word<'a> {
    ghost use Rattle.std.specs.Prelude.{◌≡◌, ◌<◌, ◌≤◌, ◌+◌, ◌/◌, ◌%◌, length, drop, All, IfOk, ◌⊎◌};
    ghost use Rattle.gsi_word.specs.Bytes.{zero_digit};
    ghost use Rattle.gsi_word.specs.Words.{IsGraphic, IsLineByte};
    ghost use Rattle.gsi_word.specs.Names.{name_of};
    ghost use Rattle.gsi_word.specs.Angles.{angle_of};
    ghost use Rattle.gsi_word.specs.declared.angle.TheConstants.{LAST_UNIT};
    ghost use Rattle.gsi_word.specs.declared.word.TheConstants.{GSI_8, GSI_16};

    /// What the word is: 11 a point number, 21 a horizontal direction, 22 a vertical angle, 41 a
    /// code, 42 its first information.
    pub fn index(&self) -> u8
        ensures value { result ≡ self.now.index }
        ensures two_digits { result < 100 }
    {
        index_of(self.bytes)
    }

    /// The first digit of the index, as it stands.
    #[inline(always)]
    pub fn tens(&self) -> u8
        ensures value { result ≡ zero_digit + self.now.index / 10 }
        ensures two_digits { self.now.index < 100 }
    {
        self.bytes[0]
    }

    /// The second digit of the index, as it stands.
    #[inline(always)]
    pub fn ones(&self) -> u8
        ensures { result ≡ zero_digit + self.now.index % 10 }
    {
        self.bytes[1]
    }

    /// The four bytes of information. In the first word of a block they are the number that the
    /// instrument counts.
    pub fn info(&self) -> &'a [u8]
        ensures value { result.now ≡ self.now.info }
        ensures four_bytes { length result.now ≡ 4 }
        ensures visible { All IsGraphic result.now }
    {
        &self.bytes[INFO..SIGN]
    }

    /// Whether the sign is minus.
    pub fn negative(&self) -> bool
        ensures { result ≡ self.now.negative }
    {
        self.bytes[SIGN] == b'-'
    }

    /// The 8 or 16 bytes of content.
    pub fn content(&self) -> &'a [u8]
        ensures value { result.now ≡ self.now.content }
        ensures width { (length result.now ≡ GSI_8) ⊎ (length result.now ≡ GSI_16) }
        ensures printable { All IsLineByte result.now }
    {
        &self.bytes[CONTENT..]
    }

    /// The name or code that the content holds: without the zeros before it, at least one byte
    /// kept.
    #[inline(always)]
    pub fn name(&self) -> &'a [u8]
        ensures value { result.now ≡ name_of self.now.content }
        ensures some_byte { 0 < length result.now }
        ensures short { length result.now ≤ GSI_16 }
        ensures printable { All IsLineByte result.now }
    {
        &self.content()[self.zeros()..]
    }

    /// How many zeros stand before that name.
    #[inline(always)]
    pub fn zeros(&self) -> usize
        ensures value { drop result self.now.content ≡ name_of self.now.content }
        ensures some_byte { result < length self.now.content }
    {
        zeros_before(self.content())
    }

    /// The angle that the word holds, in units of 0.00001 gon, from 0 to 39,999,999.
    #[inline(always)]
    pub fn angle(&self) -> Result<u32, AngleFault>
        ensures value { result ≡ angle_of self.now }
        ensures within_turn { IfOk result (λ units. units ≤ LAST_UNIT) }
    {
        let info = self.info();
        if info[3] != GON {
            return Err(AngleFault::Unit);
        }
        if !is_input_mode(info[2]) {
            return Err(AngleFault::InputMode);
        }
        if self.negative() {
            return Err(AngleFault::Sign);
        }
        match decimal_number(self.content()) {
            None => Err(AngleFault::Digits),
            Some(units) if units <= u64::from(LAST_UNIT) => Ok(units as u32),
            Some(_) => Err(AngleFault::Range),
        }
    }
}

/// The number that the first two digits write.
pub(crate) fn index_of(bytes: &[u8]) -> u8
    requires { HasIndex bytes.now }
    ensures value { result ≡ (word_of bytes.now).index }
    ensures two_digits { result < 100 }
{
    (bytes[0] - b'0') * 10 + (bytes[1] - b'0')
}

/// Whether the byte says in a way that is read here how the angle was put in.
pub(crate) fn is_input_mode(byte: u8) -> bool
    ensures { result ≡ is_input_mode byte }
{
    matches!(byte, b'.' | b'0' | b'2' | b'3')
}
