// The words of a line, each put into lent memory with the byte that stands behind it: a space, or a newline behind the last.
ghost use Rattle.std.specs.Prelude.{◌≡◌, [], ◌∷◌, ◌++◌, ◌+◌, ◌<◌, ◌≤◌, false, length};
ghost use Rattle.std.specs.Fmt.{digit_glyph};
ghost use Rattle.std.proofs.lemmas.List.Edits.{sets};
ghost use Rattle.station.specs.Arrays.{who};
ghost use Rattle.report.specs.Text.{job_word, hex_word};

use itoa::{Buffer, Integer};
use table::JobNo;

pub(crate) const SPACE: u8 = b' ';

pub(crate) const NEWLINE: u8 = b'\n';

/// A word as it stands; the place after it and the byte behind. So are those of the others.
pub(crate) fn put_word(out: &mut [u8], at: usize, word: &[u8], behind: u8) -> usize
    requires { at + (length word.now + 1) ≤ length out.old }
    ensures end { result ≡ at + (length word.now + 1) }
    ensures bytes { out.new ≡ sets out.old at (word.now ++ behind ∷ []) }
{
    let end = at + word.len();
    out[at..end].copy_from_slice(word);
    out[end] = behind;
    end + 1
}

/// A number in decimal.
pub(crate) fn put_decimal<I: Integer>(out: &mut [u8], at: usize, number: I, behind: u8) -> usize
    requires { at + (I.MAX_STR_LEN + 1) ≤ length out.old }
    ensures end { result ≡ at + (length (I.text number) + 1) }
    ensures short { result ≤ at + (I.MAX_STR_LEN + 1) }
    ensures bytes { out.new ≡ sets out.old at (I.text number ++ behind ∷ []) }
{
    let mut buffer = Buffer::new();
    put_word(out, at, buffer.format(number).as_bytes(), behind)
}

/// A job's number, or `-` for none.
pub(crate) fn put_job(out: &mut [u8], at: usize, job: Option<JobNo>, behind: u8) -> usize
    requires { at + 4 ≤ length out.old }
    ensures end { result ≡ at + (length (job_word (who job)) + 1) }
    ensures short { result ≤ at + 4 }
    ensures bytes { out.new ≡ sets out.old at (job_word (who job) ++ behind ∷ []) }
{
    match job {
        Some(job) => put_decimal(out, at, job.0, behind),
        None => put_word(out, at, b"-", behind),
    }
}

/// A lower-case hex digit.
fn hex_digit(digit: u8) -> u8
    requires { digit < 16 }
    ensures { result ≡ digit_glyph false digit }
{
    if digit < 10 {
        b'0' + digit
    } else {
        b'a' + (digit - 10)
    }
}

/// The eight hex digits of a number.
pub(crate) fn put_hex(out: &mut [u8], at: usize, number: u32, behind: u8) -> usize
    requires { at + 9 ≤ length out.old }
    ensures end { result ≡ at + (length (hex_word number) + 1) }
    ensures short { result ≤ at + 9 }
    ensures bytes { out.new ≡ sets out.old at (hex_word number ++ behind ∷ []) }
{
    for digit in 0..8 {
        let bits = number >> (28 - 4 * digit);
        out[at + digit] = hex_digit((bits % 16) as u8);
    }
    out[at + 8] = behind;
    at + 9
}
