//! The buffers of a table (OpenGL ES 1.1, section 2.9).
ghost use Rattle.std.specs.Prelude.{◌≡◌, ◌+◌, ◌≤◌, [], Some, length, option_copied, IfOk, IfSome};
ghost use Rattle.std.specs.Option.{option_map_or};
ghost use Rattle.egl_model.specs.Arguments.{number};
ghost use Rattle.egl_model.specs.Buffers.{part_in, with_part_of};
ghost use Rattle.egl_model.specs.Objects.{as_buffer, buffer_in, change_buffer, with_buffer};
ghost use Rattle.ref_store.specs.Kept.{at, AllIn};
ghost use Rattle.object_table.specs.Changes.{ChangesOne};
ghost use Rattle.object_table.specs.Nodes.{object_in};

use crate::reads::object_at;
use crate::stored::Stored;
use crate::table::ObjectTable;
use buffer_objects::Buffer;
use driver_objects::Object;
use egl_calls::arguments::number;
use egl_calls::places::{BUFFER_OFFSET, BUFFER_PART_SIZE};
use egl_calls::{Bytes, Call, NoMemory};
use ref_store::Store;
use std::alloc::Global;

fn buffer_at(store: &Store<Stored>, n: u64) -> Option<&Buffer>
    requires { AllIn store.now.nodes }
    ensures { option_copied result ≡ as_buffer (object_in (at store.now.nodes n)) }
{
    match object_at(store, n) {
        Some(Object::Buffer(buffer)) => Some(buffer),
        _ => None,
    }
}

// The bytes that a call gives; none for the null pointer.
fn given(call: &Call) -> Option<&Bytes>
    ensures { option_copied result ≡ call.now.bytes }
{
    match &call.bytes {
        Some(payload) => Some(payload.bytes()),
        None => None,
    }
}

fn put_contents_in(object: &mut Object, contents: Buffer)
    ensures { Some object.new ≡ with_buffer (λ b. contents) (Some object.old) }
{
    if let Object::Buffer(buffer) = object {
        *buffer = contents;
    }
}

fn put_contents_at(store: &mut Store<Stored>, n: u64, contents: Buffer)
    requires { AllIn store.old.nodes }
    ensures { ChangesOne store.old n (with_buffer (λ b. contents)) store.new }
{
    if store.get(n).is_some() {
        let mut stored = store.take_node(n);
        put_contents_in(&mut stored.object, contents);
        store.put_node(n, stored);
    }
}

fn set_part_in(object: &mut Object, call: &Call)
    requires { IfSome (as_buffer (Some object.old)) (λ b. number call.now 1 + number call.now 2 ≤ length b.contents) }
    ensures { Some object.new ≡ with_buffer (with_part_of call.now) (Some object.old) }
{
    if let Object::Buffer(buffer) = object {
        buffer.sub_data(
            number(call, BUFFER_OFFSET),
            number(call, BUFFER_PART_SIZE),
            given(call),
        );
    }
}

fn set_part_at(store: &mut Store<Stored>, n: u64, call: &Call)
    requires inside { IfSome (as_buffer (object_in (at store.old.nodes n))) (λ b. number call.now 1 + number call.now 2 ≤ length b.contents) }
    requires all_in { AllIn store.old.nodes }
    ensures { ChangesOne store.old n (with_buffer (with_part_of call.now)) store.new }
{
    if store.get(n).is_some() {
        let mut stored = store.take_node(n);
        set_part_in(&mut stored.object, call);
        store.put_node(n, stored);
    }
}

fn read_part_at(
    alloc: Global,
    store: &Store<Stored>,
    n: u64,
    call: &Call,
) -> Result<Bytes, NoMemory>
    requires inside { IfSome (as_buffer (object_in (at store.now.nodes n))) (λ b. number call.now 1 + number call.now 2 ≤ length b.contents) }
    requires all_in { AllIn store.now.nodes }
    ensures { IfOk result (λ bytes. bytes ≡ option_map_or (part_in call.now) (as_buffer (object_in (at store.now.nodes n))) []) }
{
    match buffer_at(store, n) {
        Some(buffer) => buffer.read(
            alloc,
            number(call, BUFFER_OFFSET),
            number(call, BUFFER_PART_SIZE),
        ),
        None => Ok(Bytes::new(alloc)),
    }
}

impl ObjectTable {
    /// The buffer of a number.
    pub fn buffer(&self, n: u64) -> Option<&Buffer>
        ensures { option_copied result ≡ buffer_in self.now.objects n }
    {
        buffer_at(&self.store, n)
    }

    /// Makes a buffer what a glBufferData leaves. It takes no memory.
    pub fn put_contents(&mut self, n: u64, contents: Buffer)
        ensures { self.new ≡ record self.old { objects = change_buffer (λ b. contents) n self.old.objects } }
    {
        put_contents_at(&mut self.store, n, contents);
    }

    /// Writes the part of a buffer's contents that a glBufferSubData gives. It takes no memory.
    pub fn set_part_of(&mut self, n: u64, call: &Call)
        requires { IfSome (buffer_in self.old.objects n) (λ b. number call.now 1 + number call.now 2 ≤ length b.contents) }
        ensures { self.new ≡ record self.old { objects = change_buffer (with_part_of call.now) n self.old.objects } }
    {
        set_part_at(&mut self.store, n, call);
    }

    /// The part of a buffer's contents that a `readBuffer` asks for; no bytes where there is no such buffer.
    pub fn read_part(&self, alloc: Global, n: u64, call: &Call) -> Result<Bytes, NoMemory>
        requires { IfSome (buffer_in self.now.objects n) (λ b. number call.now 1 + number call.now 2 ≤ length b.contents) }
        ensures { IfOk result (λ bytes. bytes ≡ option_map_or (part_in call.now) (buffer_in self.now.objects n) []) }
    {
        read_part_at(alloc, &self.store, n, call)
    }
}
