//! A generated trace, by its threads at once and by turns. Each thread draws on a window of its own with a texture of its own, and thread 0 awaits the others before it draws theirs; so every run leaves the same. What it leaves was worked out apart from the program.
use crate::commands::answer;
use crate::readings::read_text;
use egl_calls::Bytes;
use journal_text::summary;
use std::alloc::Global;
use std::process::Abort;
use trace_session::run_serial;

const SUMMARY: &[u8] =
    b"summary\nentries 10055\nrefused 0\ncensus 4 1 8 0 0 0 4 8 0 0 65792\nfront 1 64 64 2343614\nfront 2 64 64 2345382\nfront 3 64 64 2534373\nfront 4 64 64 2650251\nend\n";

fn summary_by_turns(rt: &impl Abort, alloc: Global, text: &str) -> Bytes {
    let trace = read_text(rt, alloc, text);
    match run_serial(alloc, &trace) {
        Ok(run) => summary(alloc, &trace, &run).expect(rt, "memory"),
        Err(_) => panic!(rt; "the run stalled, or found no memory"),
    }
}

#[test]
fn a_generated_trace_leaves_the_same_by_threads_and_by_turns(rt: HostRuntime) {
    let (status, trace) = answer(&rt, "gen 10000 4 7", b"", 1_048_576);
    assert_eq!(rt; status, 0);
    let text = str::from_utf8(trace.taken()).expect(&rt, "a trace is text");
    let by_turns = summary_by_turns(&rt, rt.alloc(), text);
    assert_eq!(rt; by_turns.as_slice(), SUMMARY);
    for _run in 0..5 {
        let (status, sink) = answer(&rt, "play summary", trace.taken(), 65_536);
        assert_eq!(rt; (status, sink.taken()), (0, SUMMARY));
    }
}
