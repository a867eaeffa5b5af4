// What the test programs of the C entries and of the reader ask, and how test programs show answers and buffers.
#![tactic(auto)]

mod given;
mod shown;

pub use given::{Form, result, workspace};
pub use shown::{Buffers, Byte, Shown};
