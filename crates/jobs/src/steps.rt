// The buffers of a job.
use forms::limits::Limits;

// How long the result and the workspace are; and a line, which is an index of five digits, a refusal of three, two spaces,
// a word of four, two digits for each byte of the result, and a newline.
#[derive(Clone, Copy)]
pub struct Buffers;

impl Buffers {
    pub const RESULT: usize = Limits::BYTES;

    pub const WORK: usize = 8192;

    pub const LINE: usize = 15 + 2 * Self::RESULT;
}
