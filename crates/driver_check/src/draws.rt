//! Lines in a random order, by a fixed seed.
ghost use Rattle.std.specs.Prelude.{◌≡◌, ◌<◌, false, All};
ghost use Rattle.egl_calls.specs.Ranges.{IsNumber};
ghost use Rattle.egl_model.specs.Waits.{is_wait_end};

use egl_calls::{Call, EglKind, Kind, Numbers, set_argument};
use egl_names::codes::{EGL_HEIGHT, EGL_WIDTH};
use std::alloc::Global;
use std::process::Abort;

/// How many letters there are.
const LETTERS: usize = 26;

/// Numbers one after another by the seed, and a number for each letter.
///
/// In a template `{9}` stands for a number that is drawn from 0 up to below 9, `{a}` for the one of the letter, `{+a}` for the next one, which the letter then has, and `{-a}` for one of the last eight that it had so.
#[derive(Drop)]
pub struct Draws {
    state: u64,
    known: [u32; LETTERS],
}

impl Draws {
    pub fn new(seed: u64) -> Draws {
        Draws {
            state: seed.wrapping_mul(0x9E37_79B9_7F4A_7C15) | 1,
            known: [0; LETTERS],
        }
    }

    /// The next number, which is below the bound.
    pub fn next(&mut self, bound: u32) -> u32
        requires { 0 < bound }
        ensures { result < bound }
    {
        self.state ^= self.state << 13;
        self.state ^= self.state >> 7;
        self.state ^= self.state << 17;
        ((self.state >> 11) % u64::from(bound)) as u32
    }

    pub fn learn(&mut self, letter: u8, number: u32) {
        self.known[letter as usize % LETTERS] = number;
    }

    fn known(&self, letter: u8) -> u32 {
        self.known[letter as usize % LETTERS]
    }

    /// One of the last eight numbers of a letter, where they were given one after another from 1 on.
    pub fn newest(&mut self, letter: u8) -> u32 {
        let back = self.next(8);
        self.known(letter).saturating_sub(back).max(1)
    }

    fn number(&mut self, name: &str) -> u32 {
        match name.as_bytes() {
            [b'+', letter] => {
                let next = self.known(*letter).wrapping_add(1);
                self.learn(*letter, next);
                next
            }
            [b'-', letter] => self.newest(*letter),
            [letter @ b'a'..=b'z'] => self.known(*letter),
            _ => self.next(name.parse::<u32>().unwrap_or(1).max(1)),
        }
    }

    /// Adds a template with its numbers to a text.
    pub fn put(&mut self, rt: &impl Abort, alloc: Global, out: &mut String, template: &str) {
        'pieces: for piece in template.split('{') {
            let text = match piece.split_once('}') {
                Some((name, rest)) => {
                    let number = self.number(name);
                    format!(in alloc; "{number}{rest}")
                }
                None => String::from_str(alloc, piece),
            };
            out.push_str(&text.expect(rt, "memory"))
                .expect(rt, "memory");
        }
    }
}

/// A call with these numbers and this list.
pub fn call_with(kind: Kind, numbers: [u32; 8], list: Numbers) -> Call
    requires { All IsNumber list }
    ensures { result.kind ≡ kind }
{
    let mut args = [0; 8];
    set_argument(&mut args, 0, i64::from(numbers[0]));
    set_argument(&mut args, 1, i64::from(numbers[1]));
    set_argument(&mut args, 2, i64::from(numbers[2]));
    set_argument(&mut args, 3, i64::from(numbers[3]));
    set_argument(&mut args, 4, i64::from(numbers[4]));
    set_argument(&mut args, 5, i64::from(numbers[5]));
    set_argument(&mut args, 6, i64::from(numbers[6]));
    set_argument(&mut args, 7, i64::from(numbers[7]));
    Call {
        kind,
        args,
        list,
        bytes: None,
    }
}

/// A call of EGL with these numbers.
pub fn egl(alloc: Global, kind: EglKind, numbers: [u32; 4]) -> Call
    ensures { is_wait_end result.kind ≡ false }
{
    let [first, second, third, fourth] = numbers;
    call_with(
        Kind::Egl(kind),
        [first, second, third, fourth, 0, 0, 0, 0],
        Numbers::new(alloc),
    )
}

/// The list of a surface of so many pixels. Where memory runs out it is empty.
pub fn surface_list(alloc: Global, width: u32, height: u32) -> Numbers
    ensures { All IsNumber result }
{
    let items = [
        EGL_WIDTH as i64,
        i64::from(width),
        EGL_HEIGHT as i64,
        i64::from(height),
    ];
    match Vec::from_slice(alloc, &items) {
        Ok(items) => Numbers::from_vec(items),
        Err(_) => Numbers::new(alloc),
    }
}
