// The stream of calls: call records in, answer lines out.
#![tactic(auto)]

mod answers;
mod calls;
mod decode;
mod image;
mod lines;
mod segment;
mod transcript;
mod transcript_line;

pub use answers::{Answer, Line};
pub use calls::Call;
pub use decode::next_call;
pub use image::{IMAGE_ROOM, ImageBytes};
pub use segment::{Malformed, Segment};
pub use transcript::Transcript;
pub use transcript_line::{Lines, TranscriptLine};
