//! Where texts are written. Of each write it is known which bytes the sink took, and whether it
//! failed. `write_all` writes all bytes, or a beginning of them and a write failed.
//!
//! - `StdSink`, over a writer of std, tries a write again that is interrupted.
//! - `Block`: exactly the bytes that were appended, at most so many. `flush` writes them as
//!   `write_all` does, and leaves none.
#![tactic(auto)]

mod block;
mod sink;

pub use block::{Block, flush};
pub use sink::{Sink, SinkFault, StdSink, write_all};
