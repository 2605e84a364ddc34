//! Numbers that name no context, no fence and no thread, and a wait that begins and ends.
use fence_sync::Fences;
use std::process::Abort;

/// Flushes and ends contexts that made no fence, serves fences that aren't there, and ends waits that there are none.
fn touch_others(rt: &impl Abort, fences: &mut Fences) {
    for number in [0, 2, u64::MAX] {
        fences.flush_context(number);
        fences.end_context(number);
        fences.server_wait(number);
    }
    for thread in [0, u32::MAX] {
        assert!(rt; fences.wait_end(thread) == None, "{thread}");
    }
}

#[test]
fn unknown_numbers_name_nothing(rt: HostRuntime) {
    let mut fences = Fences::new(rt.alloc());
    let first = fences.create(1).expect(&rt, "memory is ample");
    fences.destroy(first);
    assert!(rt; fences.create(1) == Ok(1));
    touch_others(&rt, &mut fences);
    assert!(rt; !fences.is_signalled(1));
    fences.flush_context(1);
    for (sync, is_signalled) in [(0, false), (1, true), (2, false), (u64::MAX, false)] {
        assert!(rt; fences.is_signalled(sync) == is_signalled, "{sync}");
    }
    assert!(rt; fences.create(1) == Ok(2));
}

#[test]
fn a_wait_ends_behind_a_flush(rt: HostRuntime) {
    let mut fences = Fences::new(rt.alloc());
    let sync = fences.create(7).expect(&rt, "memory is ample");
    fences.wait_begin(3, sync).expect(&rt, "memory is ample");
    assert!(rt; fences.wait_end(3) == None);
    assert!(rt; fences.wait_of(3) == Some(sync));
    fences.flush_context(7);
    assert!(rt; fences.wait_end(3) == Some(sync));
    assert!(rt; fences.wait_of(3) == None);
}
