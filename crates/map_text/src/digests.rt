//! The printed measurement of an enclave.

ghost use Rattle.std.specs.Prelude.{◌≡◌};
ghost use Rattle.hex.specs.Hex.{encode_lower};
ghost use Rattle.map_text.specs.Texts.{measure_text};

use text_lines::{Line, push_decimal, push_text};

/// Returns the 64 lower-case hexadecimal digits of a digest.
pub fn digest_text(digest: &[u8; 32]) -> [u8; 64]
    ensures { result ≡ encode_lower digest.now }
{
    let mut text = [0; 64];
    let Ok(()) = hex::encode_to_slice(digest.as_slice(), &mut text) else {
        unreachable!();
    };
    text
}

/// Returns `measure ID DIGEST`.
pub fn measure_line(id: u64, digest: &[u8; 32]) -> Line
    ensures { result ≡ measure_text id digest.now }
{
    let mut line = Line::new();
    push_text(&mut line, b"measure ");
    push_decimal(&mut line, id);
    line.push(b' ');
    push_text(&mut line, digest_text(digest).as_slice());
    line.push(b'\n');
    line
}
