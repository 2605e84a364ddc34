//! Whole scenes.
ghost use Rattle.std.specs.Prelude.{◌+◌, ◌<◌, ◌^◌, [], length};
ghost use Rattle.std.specs.Str.Lines.{lines};
ghost use Rattle.trace_reader.specs.Reading.{Gives};
ghost use Rattle.scene_reader.specs.Grammar.{read_items, scene};
ghost use Rattle.scene_reader.specs.Lines.{line_behind};
ghost use Rattle.scene_reader.specs.Reading.{GivesItems};

use crate::headers::header_of;
use crate::lines::item_of;
use crate::progress::Progress;
use crate::scenes::Scene;
use egl_calls::Bytes;
use std::alloc::Global;
use trace_reader::line_cuts::cut_line;
use trace_reader::word_cuts::{cut_words, is_skipped, words};
use trace_reader::{LineError, Reason, TraceError};

/// Reads a line behind the first. `parts` has room for its words.
#[tactic(auto, unfolding(crate::specs::Lines::line_behind))]
fn take_line<'a>(
    alloc: Global,
    progress: &mut Progress,
    line: &'a [u8],
    parts: &mut Vec<&'a [u8]>,
) -> Result<(), LineError>
    ensures { GivesItems (line_behind progress.old line.now) progress.old progress.new result }
{
    let Ok(()) = cut_words(parts, line) else {
        return Err(LineError::NoMemory);
    };
    if is_skipped(line, parts) {
        return Ok(());
    }
    let item = item_of(alloc, progress.items(), parts)?;
    progress.add(item)
}

/// Reads the lines behind the first.
#[tactic(auto, using(crate::proofs::DefectLaws::items_refused))]
fn read_items(alloc: Global, bytes: &[u8]) -> Result<Progress, TraceError>
    requires { length bytes.now + 2 < 2 ^ 64 }
    ensures { Gives (λ p. p) result (read_items [] 2 (lines bytes.now)) }
{
    let mut progress = Progress::new(alloc);
    let mut parts = Vec::new(alloc);
    let mut number = 2u64;
    let mut rest = bytes;
    'each: while let Some((line, more)) = cut_line(rest) {
        match take_line(alloc, &mut progress, line, &mut parts) {
            Ok(()) => {}
            Err(error) => return Err(error.at(number)),
        }
        number += 1;
        rest = more;
    }
    Ok(progress)
}

impl Scene {
    /// Reads a scene from a slice: the one that the bytes spell, or its first defective line and what is wrong with that first.
    #[tactic(auto, unfolding(crate::specs::Grammar::scene))]
    pub fn read_slice(alloc: Global, bytes: &[u8]) -> Result<Scene, TraceError>
        ensures { Gives (λ s. s) result (scene bytes.now) }
    {
        let Some((first, rest)) = cut_line(bytes) else {
            return Err(TraceError::Malformed {
                line: 1,
                reason: Reason::Header,
            });
        };
        let Ok(words) = words(alloc, first) else {
            return Err(TraceError::NoMemory);
        };
        match header_of(&words) {
            Ok(sides) => Ok(read_items(alloc, rest)?.into_scene(sides)),
            Err(reason) => Err(TraceError::Malformed { line: 1, reason }),
        }
    }

    /// Reads a scene, as `read_slice` does.
    pub fn read(alloc: Global, bytes: &Bytes) -> Result<Scene, TraceError>
        ensures { Gives (λ s. s) result (scene bytes.now) }
    {
        Scene::read_slice(alloc, bytes.as_slice())
    }
}
