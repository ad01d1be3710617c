//! What is under the keys of an object.
ghost use Rattle.std.{specs.Prelude.{◌≡◌, option_map}, specs.Result.result_ok};
ghost use Rattle.base64.{specs.Engines.standard, specs.GeneralPurpose.decode_of};
ghost use Rattle.serde_json.specs.View.{view};
ghost use Rattle.yq_journal.{specs.ListAnswers.{GivesItems, IfFound}, specs.Added.{base64_text, AreDecodedAgain}};
ghost use Rattle.yq_journal.specs.Json as spec;

use base64::DecodeAllocError;
use base64::engine::general_purpose::STANDARD;
use serde_json::Value;
use std::alloc::{AllocError, Global};

/// The number under a key: no sign, point or exponent, and within 64 bits.
pub(super) fn number(value: &Value, key: &str) -> Option<u64>
    ensures { result ≡ spec.number_at key.now (view value.now) }
{
    value.get(key)?.as_u64()
}

/// The text under a key.
pub(super) fn text<'a>(value: &'a Value, key: &str) -> Option<&'a str>
    ensures { option_map (λ s. s.now) result ≡ spec.string_at key.now (view value.now) }
{
    value.get(key)?.as_str()
}

/// Bytes from padded standard base64.
pub(super) fn decoded(alloc: Global, text: &[u8]) -> Result<Option<Vec<u8>>, AllocError>
    ensures value { GivesItems result (result_ok (decode_of standard text.now)) }
    ensures exact { IfFound result (λ v. text.now ≡ base64_text v.items) }
    ensures reads_back { IfFound result (λ v. AreDecodedAgain v.items) }
{
    match STANDARD.decode(alloc, text) {
        Ok(bytes) => Ok(Some(bytes)),
        Err(DecodeAllocError::OutOfMemory) => Err(AllocError),
        Err(_) => Ok(None),
    }
}

/// The bytes under a key, from padded standard base64.
pub(super) fn bytes(alloc: Global, value: &Value, key: &str) -> Result<Option<Vec<u8>>, AllocError>
    ensures { GivesItems result (spec.bytes_at key.now (view value.now)) }
{
    let Some(text) = text(value, key) else {
        return Ok(None);
    };
    decoded(alloc, text.as_bytes())
}

/// Whether it is an object with so many keys.
pub(super) fn has_keys(value: &Value, count: usize) -> bool
    ensures { result ≡ spec.has_keys count (view value.now) }
{
    match value.as_object() {
        Some(members) => members.len() == count,
        None => false,
    }
}
