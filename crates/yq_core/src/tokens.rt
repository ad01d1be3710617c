//! Bytes in front of inline nodes.
ghost use Rattle.std.specs.Prelude.{◌≡◌, ◌<◌, MatchOption, drop, false, length, true};
ghost use Rattle.yq_core.specs.Nodes as nodes;
ghost use Rattle.yq_core.specs.Scalars as scalars;

/// Whether this byte is in front.
pub fn first_is(k: u8, text: &[u8]) -> bool
    ensures { result ≡ nodes.begins_with k text.now }
{
    match text {
        [] => false,
        [first, ..] => *first == k,
    }
}

/// What follows this ASCII byte in front.
pub fn strip(k: u8, text: &str) -> Option<&str>
    requires { k < 128 }
    ensures { MatchOption result (nodes.begins_with k text.now ≡ false)
        (λ r. (nodes.begins_with k text.now ≡ true) × (r.now ≡ drop 1 text.now) ×
        (length r.now < length text.now)) }
{
    if first_is(k, text.as_bytes()) {
        Some(text.split_at(1).1)
    } else {
        None
    }
}

/// Whether a quote is in front.
pub fn is_quoted(text: &[u8]) -> bool
    ensures { result ≡ scalars.is_quoted text.now }
{
    matches!(text, [b'"' | b'\'', ..])
}
