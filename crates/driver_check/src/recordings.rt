//! A recording with as many entries as a trace has lines, read by its lines.
use egl_calls::Bytes;
use journal_text::read;

/// The most lines that a trace has.
const ENTRIES: usize = 100_000;

#[test]
fn the_longest_recording_is_read(rt: HostRuntime) {
    let alloc = rt.alloc();
    let entries = "15 2 ok EGL_SUCCESS [] -\n"
        .repeat(alloc, ENTRIES)
        .expect(&rt, "memory");
    let text = format!(in alloc; "recording\n{entries}census 0 0 0 0 0 0 0 0 0 0 0\nend\n").expect(
        &rt, "memory",
    );
    let recording = read(alloc, &Bytes::from_vec(text.into_bytes()), 1).expect(&rt, "no defect");
    let last = ENTRIES as u64;
    let threads = [
        recording.thread(1),
        recording.thread(last),
        recording.thread(last + 1),
    ];
    assert_eq!(rt;
        (recording.lines().len(), threads),
        (ENTRIES + 2, [Some(15), Some(15), None])
    );
    let end = recording.text(last + 2).map(|text| text.as_slice());
    assert_eq!(rt; end, Some(b"end".as_slice()));
}
