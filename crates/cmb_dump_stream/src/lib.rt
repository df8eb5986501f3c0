//! The text of a run, made window by window by the engine of words.
#![tactic(auto)]

pub mod buffer;
pub mod first;
pub mod stream;
pub mod text;
pub mod text_maker;

pub use buffer::TextBuffer;
pub use first::{first_text, keep_window};
pub use stream::Stream;
pub use text::{write_rest, write_stream};
pub use text_maker::TextMaker;
