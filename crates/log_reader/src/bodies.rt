//! What stands behind the head of a log: calls with their answers, and fronts.
ghost use Rattle.std.specs.Prelude.{◌≡◌, ◌+◌, ◌<◌, ◌≤◌, ◌&&◌, ℕ, List, Option, nat_le, nat_lt, length, map, is_some, true, IfOk, IfSome, OnOk};
ghost use Rattle.trace_reader.specs.Assigned.{with_assigned};
ghost use Rattle.trace_reader.specs.Heads.{window_with};
ghost use Rattle.trace_reader.specs.Payloads.{most_payload_bytes};
ghost use Rattle.trace_reader.specs.Pixels.{most_pixel_bytes};
ghost use Rattle.std.specs.Option.{option_map};
ghost use Rattle.log_reader.specs.Items.{answer_behind, call_taken, crash_in, empty, front_line, front_pixels, is_front, shown_of, window_in};
ghost use Rattle.log_reader.specs.Items.{most_items};
ghost use Rattle.log_reader.specs.Order.{AreBefore};
ghost use Rattle.log_reader.specs.Reading.{GivesMore, GivesOf, GivesTaken};
ghost use Rattle.log_reader.specs.declared.reasons.LogLineError.TheVariants.{Defective};
ghost use Rattle.log_reader.specs.declared.reasons.LogReason.TheVariants.{Trace};

use crate::answers::{Answer, answer_bytes, answer_in, split_answer};
use crate::forms::needs_no_answer;
use crate::heads::LogHead;
use crate::items::{Called, Item, Shown};
use crate::lines::line_of;
use crate::reasons::{LogLineError, LogReason};
use crate::words::same_word;
use egl_calls::{Kind, NoMemory};
use keyed_hash::HashKey;
use std::alloc::Global;
use std::marker::Model;
use surface_store::WindowSpec;
use trace_reader::body::thread_of;
use trace_reader::body_words::BodyWords;
use trace_reader::numerals::{numeral, positive};
use trace_reader::pixels::pixel_bytes;
use trace_reader::variables::Variables;
use trace_reader::windows::{area, window_with};
use trace_reader::word_cuts::word_at;
use trace_reader::{Line, LineError, Reason};

/// How many calls and fronts a log may have.
const MOST_ITEMS: usize = 100_000;

/// How many bytes of pixels all of them may ask for.
const MOST_PIXEL_BYTES: u64 = 134_217_728;

/// How many bytes the payloads of all calls may have together.
const MOST_PAYLOAD_BYTES: u64 = 67_108_864;

/// The largest id of a window.
const LAST_ID: u64 = 2_147_483_647;

/// What was read behind the head: the variables that calls assign, how many bytes of pixels are asked for, how many bytes the payloads have, and the items.
#[derive(Drop)]
pub struct Body<'a> {
    names: Variables<'a>,
    pixels: u64,
    payloads: u64,
    items: Vec<Item>,
}

impl<'a> Model for Body<'a> {
    ghost use Rattle.std.specs.Prelude.{◌≤◌, length};
    ghost use Rattle.trace_reader.specs.Payloads.{most_payload_bytes};
    ghost use Rattle.trace_reader.specs.Pixels.{most_pixel_bytes};
    ghost use Rattle.log_reader.specs.Items.{BodyValue, most_items};

    ghost Value = { BodyValue };

    ghost view = { λ b. record { names = b.names; pixels = b.pixels; payloads = b.payloads; items = b.items.items } };

    ghost invariant = { λ b. (b.pixels ≤ most_pixel_bytes) × (b.payloads ≤ most_payload_bytes) × (length b.items.items ≤ most_items) };
}

fn defective(reason: Reason) -> LogLineError
    ensures { result ≡ Defective (Trace reason) }
{
    LogLineError::Defective(LogReason::Trace(reason))
}

/// Whether a line tells what a window shows.
pub fn is_front(words: &[&[u8]]) -> bool
    ensures { result ≡ is_front (map (λ w. w.now) words.now) }
{
    same_word(word_at(words, 0), b"front")
}

#[tactic(auto, unfolding(crate::specs::Items::window_in))]
fn window_in(windows: &[WindowSpec], word: &[u8]) -> Result<i64, LogLineError>
    ensures value { GivesOf (λ id. id) result (window_in windows.now word.now) }
    ensures window { IfOk result (λ id. is_some (window_with windows.now id) ≡ true) }
{
    match numeral(LAST_ID, word) {
        Some(n) => {
            if window_with(windows, positive(n)).is_none() {
                return Err(defective(Reason::Window));
            }
            Ok(positive(n))
        }
        None => Err(defective(Reason::Window)),
    }
}

/// What a line of these words tells of a window.
#[tactic(auto, unfolding(crate::specs::Items::shown_of))]
fn shown_of(
    alloc: Global,
    threads: u32,
    windows: &[WindowSpec],
    number: u64,
    words: &[&[u8]],
) -> Result<Shown, LogLineError>
    requires { 0 < threads }
    ensures value { GivesOf (λ s. s) result (shown_of threads windows.now number (map (λ w. w.now) words.now)) }
    ensures number { IfOk result (λ s. s.number ≡ number) }
    ensures thread { IfOk result (λ s. s.thread < threads) }
    ensures window { IfOk result (λ s. is_some (window_with windows.now s.window) ≡ true) }
{
    if words.len() != 4 {
        return Err(defective(Reason::Argument));
    }
    let thread = match thread_of(threads, word_at(words, 1)) {
        Ok(thread) => thread,
        Err(reason) => return Err(defective(reason)),
    };
    let window = window_in(windows, word_at(words, 2))?;
    let Ok(bytes) = answer_bytes(alloc, word_at(words, 3)) else {
        return Err(LogLineError::NoMemory);
    };
    match bytes {
        Some(bytes) => Ok(Shown {
            number,
            thread,
            window,
            bytes,
        }),
        None => Err(LogLineError::Defective(LogReason::Answer)),
    }
}

/// How many bytes a front asks for.
fn front_pixels(windows: &[WindowSpec], shown: &Shown) -> u128
    ensures { result ≡ front_pixels windows.now shown.now }
{
    match window_with(windows, shown.window) {
        Some(window) => 4 * area(window) as u128,
        None => 0,
    }
}

/// The answer of a call of a kind, by the words behind it.
fn answer_behind(
    alloc: Global,
    kind: Kind,
    words: Option<&[&[u8]]>,
) -> Result<Option<Answer>, LogLineError>
    ensures { GivesOf (λ a. a) result (answer_behind kind (option_map (λ ws. map (λ w. w.now) ws.now) words.entry)) }
{
    match words {
        Some(words) => Ok(Some(answer_in(alloc, words)?)),
        None => {
            if needs_no_answer(kind) {
                Ok(Some(Answer::nothing(alloc)))
            } else {
                Ok(None)
            }
        }
    }
}

/// The word of a crash, where none was told before.
#[tactic(auto, unfolding(crate::specs::Items::crash_in))]
pub fn crash_in<'a>(told: bool, words: &[&'a [u8]]) -> Option<&'a [u8]>
    ensures { (before : Option (List ℕ)) → told ≡ is_some before → option_map (λ w. w.now) result ≡ crash_in before (map (λ w. w.now) words.now) }
{
    if !told && words.len() == 2 && word_at(words, 0) == b"crash".as_slice() {
        Some(word_at(words, 1))
    } else {
        None
    }
}

impl<'a> Body<'a> {
    /// Nothing yet. Variables hash by the key.
    pub fn new(alloc: Global, key: HashKey) -> Self
        ensures { result ≡ empty }
    {
        Body {
            names: Variables::new(alloc, key),
            pixels: 0,
            payloads: 0,
            items: Vec::new(alloc),
        }
    }

    /// Takes a front.
    #[tactic(auto, using(crate::proofs::ItemLaws::front_refused, crate::proofs::ItemLaws::front_past, crate::proofs::ItemLaws::front_taken, crate::proofs::OrderLaws::before_front))]
    pub fn take_front(
        &mut self,
        alloc: Global,
        head: &LogHead,
        number: u64,
        words: &[&[u8]],
    ) -> Result<(), LogLineError>
        requires { AreBefore head.now.head.threads head.now.head.windows number (length self.old.names) self.old.items }
        ensures value { GivesMore (front_line head.now self.old number (map (λ w. w.now) words.now)) self.new result }
        ensures order { OnOk result (AreBefore head.now.head.threads head.now.head.windows (number + 1) (length self.new.names) self.new.items) }
    {
        let windows = head.windows();
        let shown = shown_of(alloc, head.threads(), windows, number, words)?;
        let asked = front_pixels(windows, &shown);
        if self.items.len() >= MOST_ITEMS || asked > (MOST_PIXEL_BYTES - self.pixels) as u128 {
            return Err(defective(Reason::Limit));
        }
        let Ok(()) = self.items.push(Item::Front(shown)) else {
            return Err(LogLineError::NoMemory);
        };
        self.pixels += asked as u64;
        Ok(())
    }

    /// Whether one more call, which asks for so many bytes of pixels and has so many, passes no limit.
    fn has_room(&self, pixels: u128, payload: u64) -> bool
        ensures value { result ≡ (nat_lt (length self.now.items) 100000 && nat_le (self.now.pixels + pixels) most_pixel_bytes && nat_le (self.now.payloads + payload) most_payload_bytes) }
        ensures items { result ≡ true → length self.now.items < 100000 }
        ensures pixels { result ≡ true → self.now.pixels + pixels ≤ most_pixel_bytes }
        ensures payloads { result ≡ true → self.now.payloads + payload ≤ most_payload_bytes }
    {
        self.items.len() < MOST_ITEMS
            && pixels <= (MOST_PIXEL_BYTES - self.pixels) as u128
            && payload <= MOST_PAYLOAD_BYTES - self.payloads
    }

    /// Takes a call, and answers it where it is left open.
    #[tactic(auto, using(crate::proofs::ItemLaws::call_refused, crate::proofs::ItemLaws::call_past, crate::proofs::ItemLaws::call_answered_wrong, crate::proofs::ItemLaws::call_open, crate::proofs::ItemLaws::call_closed, crate::proofs::OrderLaws::before_skipped))]
    pub fn take_call(
        &mut self,
        alloc: Global,
        head: &LogHead,
        number: u64,
        words: &[&'a [u8]],
    ) -> Result<Option<Line>, LogLineError>
        requires { AreBefore head.now.head.threads head.now.head.windows number (length self.old.names) self.old.items }
        ensures value { GivesTaken (call_taken head.now self.old number (map (λ w. w.now) words.now)) self.new result }
        ensures order { OnOk result (AreBefore head.now.head.threads head.now.head.windows (number + 1) (length self.new.names) self.new.items) }
        ensures thread { IfOk result (λ o. IfSome o (λ l. l.thread < head.now.head.threads)) }
    {
        let parts = split_answer(words);
        let call_words = BodyWords::new(parts.call);
        let line = match line_of(alloc, head.threads(), &self.names, number, &call_words) {
            Ok(line) => line,
            Err(LineError::Defective(reason)) => return Err(defective(reason)),
            Err(LineError::NoMemory) => return Err(LogLineError::NoMemory),
        };
        let pixels = pixel_bytes(head.windows(), &line.call);
        let payload = line.call.payload_bytes();
        if !self.has_room(pixels, payload) {
            return Err(defective(Reason::Limit));
        }
        let answer = match answer_behind(alloc, line.call.kind(), parts.answer) {
            Ok(Some(answer)) => answer,
            Ok(None) => return Ok(Some(line)),
            Err(error) => return Err(error),
        };
        let Ok(()) = self.push_name(call_words.target()) else {
            return Err(LogLineError::NoMemory);
        };
        let Ok(()) = self.items.push(Item::Call(Called { line, answer })) else {
            return Err(LogLineError::NoMemory);
        };
        self.pixels += pixels as u64;
        self.payloads += payload;
        Ok(None)
    }

    /// Adds the variable that a call assigns.
    fn push_name(&mut self, target: Option<&'a [u8]>) -> Result<(), NoMemory>
        ensures { OnOk result (self.new ≡ record self.old { names = with_assigned self.old.names (option_map (λ w. w.now) target.entry) }) }
    {
        match target {
            Some(name) => self.names.add(name),
            None => Ok(()),
        }
    }

    /// The items.
    pub fn into_items(self) -> Vec<Item>
        ensures value { result.items ≡ self.entry.items }
        ensures few { length result.items ≤ most_items }
    {
        self.items
    }
}
