//! The first line of a scene.
ghost use Rattle.std.specs.Prelude.{◌≡◌, map, IfOk};
ghost use Rattle.scene_reader.specs.Headers as values;
ghost use Rattle.scene_reader.specs.Scenes.{IsSide};

use egl_calls::limits::LONGEST_SIDE;
use trace_reader::Reason;
use trace_reader::numerals::numeral;
use trace_reader::word_cuts::word_at;

/// The sides of a scene, in pixels.
#[derive(Clone, Copy, Drop)]
pub struct Sides {
    pub width: u32,
    pub height: u32,
}

#[tactic(auto, unfolding(crate::specs::Headers::side_of))]
fn side_of(word: &[u8]) -> Result<u32, Reason>
    ensures value { result ≡ values.side_of word.now }
    ensures side { IfOk result IsSide }
{
    match numeral(LONGEST_SIDE, word) {
        Some(n) => {
            if n == 0 {
                return Err(Reason::Header);
            }
            Ok(n as u32)
        }
        None => Err(Reason::Header),
    }
}

/// The sides that a first line of these words gives.
#[tactic(auto, unfolding(crate::specs::Headers::header_of))]
pub fn header_of(words: &[&[u8]]) -> Result<Sides, Reason>
    ensures value { result ≡ values.header_of (map (λ w. w.now) words.now) }
    ensures width { IfOk result (λ s. IsSide s.width) }
    ensures height { IfOk result (λ s. IsSide s.height) }
{
    if words.len() != 4 {
        return Err(Reason::Header);
    }
    if word_at(words, 0) != b"egl-scene".as_slice() || word_at(words, 1) != b"1".as_slice() {
        return Err(Reason::Header);
    }
    let width = side_of(word_at(words, 2))?;
    let height = side_of(word_at(words, 3))?;
    Ok(Sides { width, height })
}
