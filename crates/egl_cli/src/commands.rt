//! The commands, and the words that are one.
ghost use Rattle.std.specs.Prelude.{◌≡◌};
ghost use Rattle.trace_reader.specs.Numerals.{numeral};
ghost use Rattle.egl_cli.specs.Commands.{command_named, command_told, command_sided, command_sized, composing, generating, command_of, HasSize};

use egl_calls::Text;
use egl_calls::limits::LONGEST_SIDE;
use trace_reader::numerals::numeral;

/// The most lines that are drawn, the most threads, and the greatest seed of a trace that is generated.
const MOST_LINES: u64 = 90_000;

const MOST_THREADS: u64 = 16;

const MOST_SEED: u64 = 9_223_372_036_854_775_807;

/// What the program can be told to do.
#[derive(Clone, Copy, Debug, PartialEq, Eq, Drop)]
pub enum Command {
    /// Plays a trace by turns.
    Serial,
    /// Plays a trace by as many threads at once as it has, and tells of the run by its recording or by a summary.
    Play { summary: bool },
    /// Holds a recording against the trace in front of it.
    Check,
    /// Prints the configs.
    Configs,
    /// Prints a trace of random lines.
    Generate { lines: u64, threads: u32, seed: u64 },
    /// Plays a trace by turns, and prints the frames of a screen of these sides.
    Compose { width: u32, height: u32 },
    /// Prints the trace that draws a scene.
    Scene,
    /// Plays a trace by turns, and prints which of its calls race.
    Races,
}

fn command_named(word: &[u8]) -> Option<Command>
    ensures { result ≡ command_named word.now }
{
    if word == b"serial".as_slice() {
        Some(Command::Serial)
    } else if word == b"play".as_slice() {
        Some(Command::Play { summary: false })
    } else if word == b"check".as_slice() {
        Some(Command::Check)
    } else if word == b"configs".as_slice() {
        Some(Command::Configs)
    } else if word == b"scene".as_slice() {
        Some(Command::Scene)
    } else if word == b"races".as_slice() {
        Some(Command::Races)
    } else {
        None
    }
}

fn command_told(word: &[u8], how: &[u8]) -> Option<Command>
    ensures { result ≡ command_told word.now how.now }
{
    if word == b"play".as_slice() && how == b"summary".as_slice() {
        Some(Command::Play { summary: true })
    } else {
        None
    }
}

/// The command that composes frames of a screen of the sides that two words give.
fn composing(width: &[u8], height: &[u8]) -> Option<Command>
    ensures value { result ≡ composing (numeral 2048 width.now) (numeral 2048 height.now) }
    ensures size { HasSize result }
{
    let width = numeral(LONGEST_SIDE, width)?;
    let height = numeral(LONGEST_SIDE, height)?;
    if width == 0 || height == 0 {
        return None;
    }
    Some(Command::Compose {
        width: width as u32,
        height: height as u32,
    })
}

fn command_sided(word: &[u8], width: &[u8], height: &[u8]) -> Option<Command>
    ensures value { result ≡ command_sided word.now width.now height.now }
    ensures size { HasSize result }
{
    if word == b"compose".as_slice() {
        composing(width, height)
    } else {
        None
    }
}

/// The command that generates a trace of the size that three words give.
fn generating(lines: &[u8], threads: &[u8], seed: &[u8]) -> Option<Command>
    ensures value { result ≡ generating (numeral 90000 lines.now) (numeral 16 threads.now) (numeral 9223372036854775807 seed.now) }
    ensures size { HasSize result }
{
    let lines = numeral(MOST_LINES, lines)?;
    let threads = numeral(MOST_THREADS, threads)?;
    let seed = numeral(MOST_SEED, seed)?;
    if threads == 0 {
        return None;
    }
    Some(Command::Generate {
        lines,
        threads: threads as u32,
        seed,
    })
}

fn command_sized(word: &[u8], lines: &[u8], threads: &[u8], seed: &[u8]) -> Option<Command>
    ensures value { result ≡ command_sized word.now lines.now threads.now seed.now }
    ensures size { HasSize result }
{
    if word == b"gen".as_slice() {
        generating(lines, threads, seed)
    } else {
        None
    }
}

/// The command that the words are; none where they are none.
pub fn command_of(words: &[Text]) -> Option<Command>
    ensures value { result ≡ command_of words.now }
    ensures size { HasSize result }
{
    match words {
        [word] => command_named(word.as_slice()),
        [word, how] => command_told(word.as_slice(), how.as_slice()),
        [word, width, height] => command_sided(
            word.as_slice(),
            width.as_slice(),
            height.as_slice(),
        ),
        [word, lines, threads, seed] => command_sized(
            word.as_slice(),
            lines.as_slice(),
            threads.as_slice(),
            seed.as_slice(),
        ),
        _ => None,
    }
}
