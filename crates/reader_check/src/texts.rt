//! Texts that are read as scenes.
use egl_calls::Bytes;
use scene_reader::Scene;
use std::alloc::Global;
use std::process::Abort;
use trace_reader::TraceError;

/// What reading a text gives.
pub fn read(rt: &impl Abort, alloc: Global, text: &str) -> Result<Scene, TraceError> {
    let bytes = Vec::from_slice(alloc, text.as_bytes()).expect(rt, "memory");
    Scene::read(alloc, &Bytes::from_vec(bytes))
}

/// Adds a line so many times.
pub fn add_lines(rt: &impl Abort, text: &mut String, line: &str, count: u32) {
    for _ in 0..count {
        text.push_str(line).expect(rt, "memory");
    }
}
