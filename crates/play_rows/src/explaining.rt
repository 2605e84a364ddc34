//! What `egl_explain` tells of the input of a file, beside what is wanted: behind the input stands a line `=> STATUS`, and behind that the text.
use crate::playing::first_difference;
use anyhow::{Result, anyhow, bail, ensure};
use egl_explain::{Format, Look, explain};
use egl_flow::{Answer, MOST_INPUT};

/// A text in no colours, and with lines of any length.
pub const PLAIN: Format = Format::Text(Look {
    coloured: false,
    cut: false,
});

/// What stands between an input and its status.
const MARK: &str = "\n=> ";

/// The input of a file, its status, and its text.
fn parts(file: &str) -> Option<(&str, &str, &str)> {
    let (input, behind) = file.split_once(MARK)?;
    let (status, text) = behind.split_once("\n")?;
    Some((input, status, text))
}

/// What is said of the input of a file.
fn told<R: AllocGlobal>(rt: &R, format: Format, input: &str) -> Result<Answer> {
    let mut bytes = Vec::from_slice(rt.alloc(), input.as_bytes())?;
    bytes.push(b'\n')?;
    let bytes = bytes.as_slice();
    ensure!(bytes.len() as u64 <= MOST_INPUT, "an input is too long");
    explain(rt.alloc(), bytes, format).map_err(|_| anyhow!("no memory"))
}

/// Whether the text of a file's input is the one that is wanted; prints how it differs where not.
pub fn is_explained<R: Print + AllocGlobal>(
    rt: &R,
    format: Format,
    name: &str,
    file: &str,
) -> Result<bool> {
    let Some((input, status, wanted)) = parts(file) else {
        bail!("{name} has no line of a status");
    };
    let explained = told(rt, format, input)?;
    let found = str::from_utf8(explained.text.as_slice())?;
    let number = explained.status.number();
    let same = found == wanted && format!(in rt.alloc(); "{number}")?.as_str() == status;
    if !same {
        let (wanted, found) = first_difference(wanted, found);
        println!(rt;
            "{name}: status {number}, wanted {status}\n  wanted {wanted}\n  found  {found}"
        )?;
    }
    Ok(same)
}

/// Prints the text of a file's input behind it, in the form of such a file.
pub fn show<R: Print + AllocGlobal>(rt: &R, format: Format, name: &str, file: &str) -> Result<()> {
    let Some((input, _, _)) = parts(file) else {
        bail!("{name} has no line of a status");
    };
    let explained = told(rt, format, input)?;
    let found = str::from_utf8(explained.text.as_slice())?;
    println!(rt; "{input}\n=> {}\n{found}", explained.status.number())?;
    Ok(())
}
