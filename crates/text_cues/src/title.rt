//! Bytes of any kind as text that a title may hold.

ghost use Rattle.std.specs.Prelude.{◌≡◌, ◌≤◌, ◌++◌, length, OnOk, IfOk};
ghost use Rattle.std.specs.Str.Lossy.{utf8_valid_len};
ghost use Rattle.text_cues.specs.Title.{escaped, kept_byte, kept, shown, cut_short, title_of};

use std::alloc::{AllocError, Allocator};
use std::str;

// How many bytes the longest front has that is UTF-8.
fn valid_len(bytes: &[u8]) -> usize
    ensures value { result ≡ utf8_valid_len bytes.now }
    ensures within { result ≤ length bytes.now }
{
    match str::from_utf8(bytes) {
        Ok(_) => bytes.len(),
        Err(fault) => fault.valid_up_to(),
    }
}

// Writes a byte as `\x` and two digits.
#[tactic(auto, unfolding(crate::specs::Title::escaped))]
fn append_escaped<A: Allocator>(text: &mut Vec<u8, A>, byte: u8) -> Result<(), AllocError>
    ensures { OnOk result (text.new.items ≡ text.old.items ++ escaped byte) }
{
    let mut digits = [0; 2];
    let _ = hex::encode_to_slice([byte], &mut digits);
    text.extend_from_slice(&[b'\\', b'x', digits[0], digits[1]])
}

// Writes a byte of a character, or escapes it where a title may not hold the character.
#[tactic(auto, unfolding(crate::specs::Title::kept_byte))]
fn append_byte<A: Allocator>(text: &mut Vec<u8, A>, byte: u8) -> Result<(), AllocError>
    ensures { OnOk result (text.new.items ≡ text.old.items ++ kept_byte byte) }
{
    if byte >= 32 && byte != 127 {
        return text.extend_from_slice(&[byte]);
    }
    append_escaped(text, byte)
}

// Writes the bytes of characters so.
fn append_kept<A: Allocator>(text: &mut Vec<u8, A>, bytes: &[u8]) -> Result<(), AllocError>
    ensures { OnOk result (text.new.items ≡ text.old.items ++ kept bytes.now) }
{
    for byte in bytes {
        append_byte(text, *byte)?;
    }
    Ok(())
}

/// Writes bytes as text that a title may hold, but for its length: characters of UTF-8 stay, `\`
/// too, and each byte of none, of a character below 0x20 and of 0x7F is `\x` and two hex digits.
/// Where memory runs out, `text` has an unknown part of it.
pub fn append_shown<A: Allocator>(text: &mut Vec<u8, A>, bytes: &[u8]) -> Result<(), AllocError>
    ensures { OnOk result (text.new.items ≡ text.old.items ++ shown bytes.now) }
{
    let mut rest = bytes;
    'chunks: loop {
        let valid = valid_len(rest);
        append_kept(text, &rest[..valid])?;
        if valid == rest.len() {
            return Ok(());
        }
        let after = &rest[valid..];
        append_escaped(text, after[0])?;
        rest = &after[1..];
    }
}

// Cuts a text behind its last whole character within 255 bytes.
#[tactic(auto, unfolding(crate::specs::Title::cut_short))]
fn cut_short<A: Allocator>(text: &mut Vec<u8, A>)
    ensures { text.new.items ≡ cut_short text.old.items }
{
    let whole = text.as_slice();
    let most = whole.len().min(255);
    let end = valid_len(&whole[..most]);
    text.truncate(end);
}

/// The title that a marker gets from a label: as `append_shown` writes it, cut behind the last
/// whole character within 255 bytes. A label that is a title stays as it is.
pub fn label_title<A: Allocator>(alloc: A, label: &[u8]) -> Result<Vec<u8, A>, AllocError>
    ensures { IfOk result (λ title. title.items ≡ title_of label.now) }
{
    let mut title = Vec::new(alloc);
    append_shown(&mut title, label)?;
    cut_short(&mut title);
    Ok(title)
}
