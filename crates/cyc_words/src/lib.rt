//! This crate is the base of the compiler: it has 32-bit words and their arithmetic, the faults of a source text, and devices that
//! read and write bytes.
#![tactic(auto)]

mod arith;
mod bytes;
mod device;
mod fault;
pub mod laws;
mod reader;
mod span;
mod writer;

pub use arith::{add, div, mul, rem, sar, shl, shr, slt, sltu, sub};
pub use bytes::{byte_in, bytes_of, with_byte, word_at};
pub use device::{ByteIn, ByteOut, Failed};
pub use fault::{Code, Fault};
pub use reader::Reader;
pub use span::Span;
pub use writer::Writer;
