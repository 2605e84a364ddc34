//! A text for people, which grows piece by piece.
ghost use Rattle.std.specs.Prelude.{◌≡◌, ◌<◌, length, true, false, ◌∷◌, [], ◌++◌, decimal, replicate, flat_map, IfOk, IfErr};
ghost use Rattle.trace_model.specs.Recording.{hex_byte, number_text};
ghost use Rattle.egl_explain.specs.Pieces.{HasPiece, begun, ended, is_cut, shown, shown_digits};

use egl_calls::{Bytes, NoMemory};
use journal_text::put_hex;
use journal_text::texts::{put_byte, put_decimal, put_number, put_text};
use std::alloc::Global;

/// How many bytes of a line are shown on a terminal.
const WIDEST: usize = 160;

/// Where a text is shown.
#[derive(Clone, Copy, Debug, PartialEq, Eq, Drop)]
pub struct Look {
    /// Whether it has colours.
    pub coloured: bool,
    /// Whether wide lines are cut.
    pub cut: bool,
}

/// In which form an input is told of.
#[derive(Clone, Copy, Debug, PartialEq, Eq, Drop)]
pub enum Format {
    /// A text for people.
    Text(Look),
    /// A line of JSON for each thing that is told.
    Json,
}

/// What a piece of text is.
#[derive(Clone, Copy, Debug, PartialEq, Eq, Drop)]
pub enum Ink {
    /// What was answered.
    Answer,
    /// What decides, or is wrong.
    Fault,
    /// What else holds, and numbers of lines.
    Pale,
}

/// A text that grows, and where it is shown. Where memory runs out for a piece, the text lacks it, and nobody gets the text.
#[derive(Drop)]
pub struct Page {
    text: Bytes,
    is_whole: bool,
    look: Look,
}

impl Page {
    pub fn new(alloc: Global, look: Look) -> Page {
        Page {
            text: Bytes::new(alloc),
            is_whole: true,
            look,
        }
    }

    /// The text, where there was memory for each piece of it.
    pub fn into_text(self) -> Result<Bytes, NoMemory>
        ensures whole { IfOk result (λ _. self.is_whole ≡ true) }
        ensures text { IfOk result (λ t. t ≡ self.text) }
        ensures lacks { IfErr result (λ _. self.is_whole ≡ false) }
    {
        if self.is_whole {
            Ok(self.text)
        } else {
            Err(NoMemory)
        }
    }

    // Notes whether a piece was put.
    fn note(&mut self, put: Result<(), NoMemory>)
        ensures ok { IfOk put (λ _. self.new.is_whole ≡ self.old.is_whole) }
        ensures err { IfErr put (λ _. self.new.is_whole ≡ false) }
        ensures text { self.new.text ≡ self.old.text }
        ensures look { self.new.look ≡ self.old.look }
    {
        if put.is_err() {
            self.is_whole = false;
        }
    }

    #[tactic(auto, using(crate::proofs::PieceLaws::noted))]
    pub fn put(&mut self, text: &str)
        ensures { HasPiece self.old text.now self.new }
    {
        let put = put_text(&mut self.text, text);
        self.note(put);
    }

    #[tactic(auto, using(crate::proofs::PieceLaws::noted))]
    pub fn put_decimal(&mut self, n: u64)
        ensures { HasPiece self.old (decimal n) self.new }
    {
        let put = put_decimal(&mut self.text, n);
        self.note(put);
    }

    /// A number by its name where it has one.
    #[tactic(auto, using(crate::proofs::PieceLaws::noted))]
    pub fn put_number(&mut self, z: i64)
        ensures { HasPiece self.old (number_text z) self.new }
    {
        let put = put_number(&mut self.text, z);
        self.note(put);
    }

    /// Bytes as they are.
    #[tactic(auto, using(crate::proofs::PieceLaws::noted))]
    fn put_whole(&mut self, bytes: &[u8])
        ensures { HasPiece self.old bytes.now self.new }
    {
        let put = self.text.extend(bytes);
        self.note(put);
    }

    /// Two digits for each byte.
    #[tactic(auto, using(crate::proofs::PieceLaws::noted))]
    fn put_hex(&mut self, bytes: &[u8])
        ensures { HasPiece self.old (flat_map hex_byte bytes.now) self.new }
    {
        let put = put_hex(&mut self.text, bytes);
        self.note(put);
    }

    /// Whether of bytes only the first so many are shown.
    fn cuts(&self, most: usize, bytes: &[u8]) -> bool
        ensures value { result ≡ is_cut self.now.look most bytes.now }
        ensures more { result ≡ true → most < length bytes.now }
    {
        self.look.cut && bytes.len() > most
    }

    /// Bytes as they are, the first of them where wide lines are cut.
    #[tactic(auto, using(crate::proofs::PieceLaws::joined))]
    pub fn put_bytes(&mut self, bytes: &[u8])
        ensures { HasPiece self.old (shown self.old.look bytes.now) self.new }
    {
        if self.cuts(WIDEST, bytes) {
            let (front, _) = bytes.split_at(WIDEST);
            self.put_whole(front);
            self.put("..");
        } else {
            self.put_whole(bytes);
        }
    }

    /// Two digits for each byte, the first bytes where wide lines are cut.
    #[tactic(auto, using(crate::proofs::PieceLaws::joined))]
    pub fn put_digits(&mut self, bytes: &[u8])
        ensures { HasPiece self.old (shown_digits self.old.look bytes.now) self.new }
    {
        if self.cuts(WIDEST / 2, bytes) {
            let (front, _) = bytes.split_at(WIDEST / 2);
            self.put_hex(front);
            self.put("..");
        } else {
            self.put_hex(bytes);
        }
    }

    /// One byte.
    #[tactic(auto, using(crate::proofs::PieceLaws::noted))]
    fn put_byte(&mut self, byte: u8)
        ensures { HasPiece self.old (byte ∷ []) self.new }
    {
        let put = put_byte(&mut self.text, byte);
        self.note(put);
    }

    /// So many spaces.
    #[tactic(auto, using(crate::proofs::PieceLaws::one_more))]
    pub fn put_spaces(&mut self, count: usize)
        ensures { HasPiece self.old (replicate count 32) self.new }
    {
        'each: for _k in 0..count {
            self.put_byte(b' ');
        }
    }

    /// Begins a piece of this kind, where there are colours.
    #[tactic(auto, using(crate::proofs::PieceLaws::nothing))]
    pub fn begin(&mut self, ink: Ink)
        ensures { HasPiece self.old (begun self.old.look ink) self.new }
    {
        if self.look.coloured {
            match ink {
                Ink::Answer => self.put("\x1b[32m"),
                Ink::Fault => self.put("\x1b[1;31m"),
                Ink::Pale => self.put("\x1b[2m"),
            }
        }
    }

    /// Ends a piece.
    #[tactic(auto, using(crate::proofs::PieceLaws::nothing))]
    pub fn end(&mut self)
        ensures { HasPiece self.old (ended self.old.look) self.new }
    {
        if self.look.coloured {
            self.put("\x1b[0m");
        }
    }

    /// Text of this kind.
    #[tactic(auto, using(crate::proofs::PieceLaws::inked))]
    pub fn put_in(&mut self, ink: Ink, text: &str)
        ensures { HasPiece self.old (begun self.old.look ink ++ (text.now ++ ended self.old.look)) self.new }
    {
        self.begin(ink);
        self.put(text);
        self.end();
    }

    pub fn end_line(&mut self)
        ensures { HasPiece self.old (10 ∷ []) self.new }
    {
        self.put_byte(b'\n');
    }
}
