// The line of an answer.
ghost use Rattle.std.specs.Prelude.{◌≡◌, ◌++◌, ◌≤◌, ◌<◌, length};
ghost use Rattle.cedar.specs.Lines.{hex, bad_line};
ghost use Rattle.writing.specs.FormLengths.{seen};
ghost use Rattle.writing.specs.Written.{Written};
ghost use Rattle.jobs.specs.LineBytes.{number_in, many_in, required_word, text_in, field, line_in, LineRoom};

use crate::steps::Buffers;
use crate::text::{put_decimal, put_hex};
use forms::numbers::wide;
use forms::refusals::Refusal;
use validator::answers::Answer;
use writing::writers::{put_bytes, put_one};

// The refusal's number, or 0.
fn number(answer: Result<Answer, Refusal>) -> usize
    ensures { (result ≡ number_in (seen answer)) × (result < 256) }
{
    match answer {
        Ok(_) => 0,
        Err(refusal) => wide(u8::from(refusal)),
    }
}

// Writes a number and a space.
fn put_field(n: usize, out: &mut [u8]) -> usize
    requires { length (field n) ≤ length out.old }
    ensures { Written (field n) out.old out.new result }
{
    let at = put_decimal(n, out);
    put_one(&mut out[at..], b' ');
    at + 1
}

// Writes whether an attribute is required.
fn put_required(required: bool, out: &mut [u8]) -> usize
    requires { 2 ≤ length out.old }
    ensures { Written (required_word required) out.old out.new result }
{
    put_bytes(if required { b"r:" } else { b"o:" }, out)
}

// Writes a looked-up attribute: whether it is required, and its type's form.
fn put_attribute(required: bool, form: &[u8], out: &mut [u8]) -> usize
    requires { length (required_word required ++ hex form.now) ≤ length out.old }
    ensures { Written (required_word required ++ hex form.now) out.old out.new result }
{
    let at = put_required(required, out);
    at + put_hex(form, &mut out[at..])
}

// Writes an answer whose bytes begin the result buffer. No question of a job measures.
fn put_answer(answer: Result<Answer, Refusal>, res: &[u8], out: &mut [u8]) -> usize
    requires answer_in_bounds { many_in (seen answer) ≤ length res.now }
    requires res_in_bounds { length (text_in (seen answer) res.now) ≤ length out.old }
    ensures { Written (text_in (seen answer) res.now) out.old out.new result }
{
    match answer {
        Err(_) => put_bytes(b"-", out),
        Ok(Answer::Yes) => put_bytes(b"yes", out),
        Ok(Answer::No) => put_bytes(b"no", out),
        Ok(Answer::Nothing) => put_bytes(b"none", out),
        Ok(Answer::Measured(_, _)) => 0,
        Ok(Answer::Typed(n, _)) => put_hex(&res[..n], out),
        Ok(Answer::Attribute(required, n, _)) => put_attribute(required, &res[..n], out),
        Ok(Answer::Named(n)) => put_hex(&res[..n], out),
    }
}

// Writes the line of an answer: index, refusal or 0, answer.
pub fn put_line(index: usize, answer: Result<Answer, Refusal>, res: &[u8], out: &mut [u8]) -> usize
    requires { LineRoom index (seen answer) res.now out.old }
    ensures { Written (line_in index (seen answer) res.now) out.old out.new result }
{
    let refusal = number(answer);
    let number_at = put_field(index, out);
    let answer_at = number_at + put_field(refusal, &mut out[number_at..]);
    let end = answer_at + put_answer(answer, res, &mut out[answer_at..]);
    put_one(&mut out[end..], b'\n');
    end + 1
}

// Writes the only line of a bad job.
pub fn put_bad_line(out: &mut [u8; Buffers::LINE]) -> usize
    ensures { Written bad_line out.old out.new result }
{
    put_bytes(b"- 16 -\n", out)
}
