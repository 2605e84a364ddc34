//! Buffer objects.
ghost use Rattle.std.specs.Prelude.{◌≡◌, ◌+◌, ◌≤◌, [], length, slice_range, IfOk, IfSome, OnOk, OnErr};
ghost use Rattle.std.specs.Option.{option_copied};
ghost use Rattle.egl_calls.specs.Ranges.{IsNumber, unsigned};
ghost use Rattle.buffer_objects.specs.Buffers.{fresh, parameter, specified, replaced};
ghost use Rattle.buffer_objects.specs.Contents.{given};

use crate::contents::{filled, refill};
use crate::usages::{Usage, usage_code, usage_of};
use egl_calls::{Bytes, NoMemory, unsigned};
use egl_names::codes::{GL_BUFFER_SIZE, GL_BUFFER_USAGE};
use std::alloc::Global;
use std::marker::Model;

/// The most bytes that a buffer has.
const SIZE_LIMIT: u64 = 2_147_483_647;

/// A buffer object: its bytes, at most 2,147,483,647, and what they are meant for (OpenGL ES 1.1, section 2.9).
#[derive(Drop)]
pub struct Buffer {
    contents: Vec<u8>,
    usage: Usage,
}

impl Model for Buffer {
    ghost use Rattle.std.specs.Prelude.{◌≤◌, length};
    ghost use Rattle.buffer_objects.specs.Buffers.{BufferValue};

    ghost Value = { BufferValue };

    ghost view = { λ b. record { contents = b.contents.items; usage = b.usage } };

    ghost invariant = { λ b. length b.contents.items ≤ 2147483647 };
}

/// The bytes that are given, none for the null pointer.
fn given(bytes: Option<&Bytes>) -> &[u8]
    ensures { result.now ≡ given (option_copied bytes.entry) }
{
    match bytes {
        Some(bytes) => bytes.as_slice(),
        None => &[],
    }
}

impl Buffer {
    /// A buffer without bytes, for GL_STATIC_DRAW.
    pub fn new(alloc: Global) -> Buffer
        ensures { result ≡ fresh }
    {
        Buffer {
            contents: Vec::new(alloc),
            usage: Usage::StaticDraw,
        }
    }

    /// Replaces the contents by so many bytes, and the usage, the code of GL_STATIC_DRAW or GL_DYNAMIC_DRAW; any other is taken for the first. The first bytes are those that are given, the others, and all for the null pointer, are 0.
    ///
    /// Want of memory, and more than 2,147,483,647 bytes, are the one refusal: all is as it was.
    pub fn data(&mut self, size: u64, usage: i64, bytes: Option<&Bytes>) -> Result<(), NoMemory>
        ensures ok { OnOk result (self.new ≡ specified size (unsigned usage) (given (option_copied bytes.entry))) }
        ensures err { OnErr result (self.new ≡ self.old) }
    {
        if size > SIZE_LIMIT {
            return Err(NoMemory);
        }
        let alloc = *self.contents.allocator();
        let contents = filled(alloc, size as usize, given(bytes))?;
        self.contents = contents;
        self.usage = usage_of(unsigned(usage));
        Ok(())
    }

    /// Replaces so many bytes from an offset on by those that are given, and where they are too few by 0. It takes no memory.
    pub fn sub_data(&mut self, offset: u64, size: u64, bytes: Option<&Bytes>)
        requires { offset + size ≤ length self.old.contents }
        ensures { self.new ≡ replaced offset size (given (option_copied bytes.entry)) self.old }
    {
        refill(
            &mut self.contents,
            offset as usize,
            size as usize,
            given(bytes),
        );
    }

    /// How many bytes there are.
    pub fn size(&self) -> u64
        ensures size { result ≡ length self.now.contents }
        ensures within { result ≤ 2147483647 }
    {
        self.contents.len() as u64
    }

    /// The value of GL_BUFFER_SIZE or GL_BUFFER_USAGE, and none of another name.
    pub fn parameter(&self, pname: i64) -> Option<i64>
        ensures value { result ≡ parameter (unsigned pname) self.now }
        ensures number { IfSome result IsNumber }
    {
        let pname = unsigned(pname);
        if pname == GL_BUFFER_SIZE {
            return Some(self.contents.len() as i64);
        }
        if pname == GL_BUFFER_USAGE {
            return Some(usage_code(self.usage) as i64);
        }
        None
    }

    /// So many bytes from an offset on.
    pub fn read(&self, alloc: Global, offset: u64, size: u64) -> Result<Bytes, NoMemory>
        requires { offset + size ≤ length self.now.contents }
        ensures { IfOk result (λ b. b ≡ slice_range self.now.contents offset (offset + size)) }
    {
        let contents = self.contents.as_slice();
        let start = offset as usize;
        let end = start + size as usize;
        match Vec::from_slice(alloc, &contents[start..end]) {
            Ok(items) => Ok(Bytes::from_vec(items)),
            Err(_) => Err(NoMemory),
        }
    }
}
