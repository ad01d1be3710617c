//! The pieces of a journal's text: numbers, bytes in base64, and commas.
ghost use Rattle.std.{specs.Prelude.{◌≡◌, ◌<◌, ◌^◌, ◌++◌, OnOk}, specs.String.string_bytes};
ghost use Rattle.serde_json.specs.Written.{comma_if};
ghost use Rattle.yq_journal.specs.Added.{AreDecodedAgain, AddsNumber, AddsBase64};

use base64::engine::general_purpose::STANDARD;
use itoa::Buffer;
use std::alloc::AllocError;

/// Adds a key, with what comes before it, and a number.
pub(super) fn push_number(text: &mut String, key: &str, number: u64) -> Result<(), AllocError>
    ensures added { AddsNumber result text.old text.new key.now number }
    ensures fits { OnOk result (number < 2 ^ 64) }
{
    let mut buffer = Buffer::new();
    text.push_str(key)?;
    text.push_str(buffer.format(number))?;
    Ok(())
}

/// Adds a comma, unless it would be the first thing of a list.
pub(super) fn push_comma(text: &mut String, later: bool) -> Result<(), AllocError>
    ensures { OnOk result (string_bytes text.new ≡ string_bytes text.old ++ comma_if later) }
{
    if !later {
        return Ok(());
    }
    text.push_str(",")?;
    Ok(())
}

/// Adds bytes in base64, of which JSON escapes no character.
pub(super) fn push_base64(text: &mut String, bytes: &[u8]) -> Result<(), AllocError>
    ensures added { AddsBase64 result text.old text.new bytes.now }
    ensures reads_back { OnOk result (AreDecodedAgain bytes.now) }
{
    STANDARD.encode_string(bytes, text)
}
