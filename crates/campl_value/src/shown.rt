// Texts as they are shown, with escapes.
ghost use Rattle.std.specs.Prelude.{◌≡◌, ◌≤◌, ◌++◌, IsTrue, true, false, not, codes, chars, encode_utf8_all, flat_map, length, OnOk};
ghost use Rattle.std.specs.List.{list_all, prefix_len};
ghost use Rattle.std.specs.Fmt.{digits};
ghost use Rattle.campl_value.specs.Shown.{has_escape, escape_of, shown_byte, shown_bytes};

use std::alloc::AllocError;

/// Appends a text as it is shown, in UTF-8: a backslash, and what has no picture, as an escape, and all else as it is, as much
/// at once as stands together. An error means that memory is out.
#[tactic(auto, using(crate::proofs::Escapes::shown_bytes_of))]
pub fn push_shown(output: &mut Vec<u8>, text: &str) -> Result<(), AllocError>
    ensures { OnOk result (output.new.items ≡ output.old.items ++ shown_bytes (chars text.now)) }
{
    push_bytes(output, text.as_bytes())
}

#[tactic(auto, using(crate::proofs::Escapes::all_stay))]
fn push_bytes(output: &mut Vec<u8>, text: &[u8]) -> Result<(), AllocError>
    ensures { OnOk result (output.new.items ≡ output.old.items ++ flat_map shown_byte text.now) }
{
    if is_plain(text) {
        output.extend_from_slice(text)?;
        Ok(())
    } else {
        push_pieces(output, text)
    }
}

// The same of a text with escapes.
fn push_pieces(output: &mut Vec<u8>, text: &[u8]) -> Result<(), AllocError>
    ensures { OnOk result (output.new.items ≡ output.old.items ++ flat_map shown_byte text.now) }
{
    let mut rest = text;
    'pieces: loop {
        let plain = plain_len(rest);
        output.extend_from_slice(&rest[..plain])?;
        if plain == rest.len() {
            return Ok(());
        }
        push_escape(output, rest[plain])?;
        rest = &rest[plain + 1..];
    }
}

// Whether no byte has an escape. It looks at all, so that it may look at many at once.
fn is_plain(text: &[u8]) -> bool
    ensures { result ≡ list_all (λ b. not (has_escape b)) text.now }
{
    let mut plain = true;
    for byte in text {
        plain &= !has_escape(*byte);
    }
    plain
}

// How many bytes stand before the first one that has an escape, or all.
fn plain_len(text: &[u8]) -> usize
    ensures value { result ≡ prefix_len (λ b. not (has_escape b)) text.now }
    ensures within { result ≤ length text.now }
{
    for (i, byte) in text.iter().enumerate() {
        if has_escape(*byte) {
            return i;
        }
    }
    text.len()
}

fn has_escape(byte: u8) -> bool
    ensures { result ≡ has_escape byte }
{
    byte == b'\\' || byte < 32 || byte == 127
}

// The escape of a character.
#[tactic(auto, using(crate::proofs::Escapes::two_bytes))]
fn push_escape(output: &mut Vec<u8>, byte: u8) -> Result<(), AllocError>
    requires { has_escape byte ≡ true }
    ensures { OnOk result (output.new.items ≡ output.old.items ++ encode_utf8_all (escape_of byte)) }
{
    match byte {
        b'\\' => output.extend_from_slice(b"\\\\"),
        b'\n' => output.extend_from_slice(b"\\n"),
        b'\r' => output.extend_from_slice(b"\\r"),
        b'\t' => output.extend_from_slice(b"\\t"),
        _ => push_code(output, byte),
    }
}

// An escape by the character's number.
fn push_code(output: &mut Vec<u8>, code: u8) -> Result<(), AllocError>
    requires { has_escape code ≡ true }
    ensures { OnOk result (output.new.items ≡ output.old.items ++ encode_utf8_all (codes "\\u{" ++ (digits 16 false code ++ codes "}"))) }
{
    let escape = format!(in *output.allocator(); "\\u{{{code:x}}}")?;
    output.extend_from_slice(escape.as_bytes())
}
