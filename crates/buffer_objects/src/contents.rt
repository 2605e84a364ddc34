//! The bytes of a buffer.
ghost use Rattle.std.specs.Prelude.{◌≡◌, ◌+◌, ◌-◌, ◌≤◌, length, replicate, IfOk};
ghost use Rattle.buffer_objects.specs.Contents.{filled, written};

use egl_calls::NoMemory;
use std::alloc::Global;

/// So many bytes, of which the first are those that are given, and the others 0.
pub(crate) fn filled(alloc: Global, size: usize, given: &[u8]) -> Result<Vec<u8>, NoMemory>
    ensures { IfOk result (λ v. v.items ≡ filled size given.now) }
{
    let taken = given.len().min(size);
    let Ok(mut items) = Vec::with_capacity(alloc, size) else {
        return Err(NoMemory);
    };
    if items.extend_from_slice(&given[..taken]).is_err() {
        return Err(NoMemory);
    }
    if items.resize(size, 0).is_err() {
        return Err(NoMemory);
    }
    Ok(items)
}

/// Copies bytes over those that stand from a place on.
fn write_over(items: &mut [u8], from: usize, bytes: &[u8])
    requires { from + length bytes.now ≤ length items.old }
    ensures { items.new ≡ written from bytes.now items.old }
{
    let to = from + bytes.len();
    items[from..to].copy_from_slice(bytes);
}

/// Writes 0 over so many bytes from a place on.
fn clear_over(items: &mut [u8], from: usize, count: usize)
    requires { from + count ≤ length items.old }
    ensures { items.new ≡ written from (replicate count 0) items.old }
{
    let to = from + count;
    items[from..to].fill(0);
}

fn refill_slice(items: &mut [u8], from: usize, size: usize, given: &[u8])
    requires { from + size ≤ length items.old }
    ensures bytes { items.new ≡ written from (filled size given.now) items.old }
    ensures long { length items.new ≡ length items.old }
{
    let taken = given.len().min(size);
    write_over(items, from, &given[..taken]);
    clear_over(items, from + taken, size - taken);
}

/// Replaces a part of the bytes by those that are given, and where they are too few by 0.
pub(crate) fn refill(items: &mut Vec<u8>, from: usize, size: usize, given: &[u8])
    requires { from + size ≤ length items.old.items }
    ensures bytes { items.new.items ≡ written from (filled size given.now) items.old.items }
    ensures long { length items.new.items ≡ length items.old.items }
{
    refill_slice(items.as_mut_slice(), from, size, given);
}
