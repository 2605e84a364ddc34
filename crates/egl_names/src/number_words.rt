//! The words that stand for a number.
ghost use Rattle.std.specs.Prelude.{◌≡◌, map, pos};
ghost use Rattle.std.specs.Option.{option_map};
ghost use Rattle.egl_names.specs.Names.{value_in, bit_word, number_word};

use egl_calls::Text;

/// The words that stand for a number and are no bits.
static PLAIN_WORDS: [(&str, i64); 13] = [
    ("EGL_FALSE", 0),
    ("GL_FALSE", 0),
    ("EGL_DEFAULT_DISPLAY", 0),
    ("EGL_NO_DISPLAY", 0),
    ("EGL_NO_CONTEXT", 0),
    ("EGL_NO_SURFACE", 0),
    ("EGL_NO_SYNC", 0),
    ("EGL_NO_IMAGE", 0),
    ("EGL_TRUE", 1),
    ("GL_TRUE", 1),
    ("EGL_DONT_CARE", -1),
    ("EGL_FOREVER", -1),
    ("EGL_CONTEXT_MAJOR_VERSION", 3_000_000_074),
];

/// The words that are bits of a number.
static BIT_WORDS: [(&str, u32); 12] = [
    ("EGL_PBUFFER_BIT", 1),
    ("EGL_PIXMAP_BIT", 2),
    ("EGL_WINDOW_BIT", 4),
    ("EGL_SWAP_BEHAVIOR_PRESERVED_BIT", 8),
    ("EGL_OPENGL_ES_BIT", 1),
    ("EGL_OPENVG_BIT", 2),
    ("EGL_OPENGL_ES2_BIT", 4),
    ("EGL_OPENGL_BIT", 8),
    ("EGL_SYNC_FLUSH_COMMANDS_BIT", 1),
    ("GL_COLOR_BUFFER_BIT", 1),
    ("GL_DEPTH_BUFFER_BIT", 2),
    ("GL_STENCIL_BUFFER_BIT", 4),
];

/// The number beside a word in a list.
fn value_in<V: Copy>(words: &[(&str, V)], word: &[u8]) -> Option<V>
    ensures { result ≡ value_in (map (λ e. (e.0.now, e.1)) words.now) word.now }
{
    for entry in words {
        if entry.0.as_bytes() == word {
            return Some(entry.1);
        }
    }
    None
}

/// The number of a word that is a bit, as EGL_WINDOW_BIT.
pub fn bit_of_word(word: &[u8]) -> Option<u32>
    ensures { result ≡ bit_word word.now }
{
    value_in(&BIT_WORDS, word)
}

fn as_number(bit: Option<u32>) -> Option<i64>
    ensures { result ≡ option_map pos bit }
{
    match bit {
        Some(bit) => Some(bit as i64),
        None => None,
    }
}

/// The number of a word that stands for one, as EGL_TRUE or EGL_WINDOW_BIT.
pub fn number_of_word(word: &[u8]) -> Option<i64>
    ensures { result ≡ number_word word.now }
{
    let plain = value_in(&PLAIN_WORDS, word);
    if plain.is_some() {
        return plain;
    }
    as_number(bit_of_word(word))
}

/// The number of a word that stands for one, as EGL_TRUE or EGL_WINDOW_BIT.
pub fn number_word(text: &Text) -> Option<i64>
    ensures { result ≡ number_word text.now }
{
    number_of_word(text.as_slice())
}
