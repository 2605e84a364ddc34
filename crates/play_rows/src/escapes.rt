//! Bytes that a line of text can't show.
ghost use Rattle.std.specs.Prelude.{◌<◌, IfSome};

use anyhow::{Result, bail};

fn digit_of(c: u8) -> Option<u8>
    ensures { IfSome result (λ d. d < 16) }
{
    match c {
        b'0'..=b'9' => Some(c - b'0'),
        b'a'..=b'f' => Some(c - b'a' + 10),
        _ => None,
    }
}

fn byte_of(high: u8, low: u8) -> Result<u8> {
    match (digit_of(high), digit_of(low)) {
        (Some(high), Some(low)) => Ok(high * 16 + low),
        _ => bail!("an escape by `\\x` has two of 0-9 and a-f"),
    }
}

/// Adds the byte of an escape whose backslash stood before the piece, and what stands behind it in the piece.
fn push_escape(bytes: &mut Vec<u8>, piece: &[u8]) -> Result<()> {
    let (byte, rest) = match piece {
        [b'r', rest @ ..] => (b'\r', rest),
        [b't', rest @ ..] => (b'\t', rest),
        [b'0', rest @ ..] => (0, rest),
        [b'x', high, low, rest @ ..] => (byte_of(*high, *low)?, rest),
        _ => bail!("an escape is none of `\\r`, `\\t`, `\\0` and `\\xNN`"),
    };
    bytes.push(byte)?;
    bytes.extend_from_slice(rest)?;
    Ok(())
}

/// Adds the bytes that a text stands for.
pub fn push_unescaped(bytes: &mut Vec<u8>, text: &str) -> Result<()> {
    let mut is_plain = true;
    for piece in text.split('\\') {
        if is_plain {
            bytes.extend_from_slice(piece.as_bytes())?;
        } else {
            push_escape(bytes, piece.as_bytes())?;
        }
        is_plain = false;
    }
    Ok(())
}
