//! What a worker passes before each of its lines.

/// A place that a worker passes before each line of its thread, outside its turn: a test holds a thread back here.
pub trait Gate {
    /// Called before the thread's line with this number is played.
    fn before(&self, thread: u32, line: u64);

    /// Whether it holds nobody back. Only then does a worker play several lines in one turn, since the gate is passed outside the turns.
    fn is_open(&self) -> bool;
}

/// A gate that holds nobody back.
#[derive(Clone, Copy, Drop)]
pub struct OpenGate;

impl Gate for OpenGate {
    fn before(&self, _thread: u32, _line: u64) {}

    fn is_open(&self) -> bool {
        true
    }
}

/// Tells the gate of a line, unless it was told of it last.
pub(crate) fn announce<G: Gate>(gate: &G, thread: u32, line: Option<u64>, told: &mut Option<u64>) {
    if line == *told {
        return;
    }
    if let Some(number) = line {
        gate.before(thread, number);
        *told = line;
    }
}
