//! Ids: letters, digits and `_`, with no digit first.

ghost use Rattle.std.specs.Prelude.{◌≡◌};
ghost use Rattle.std.specs.List.{list_all};
ghost use Rattle.ovs_data.specs.Names.{is_part, is_id, is_name};

fn is_part(byte: u8) -> bool
    ensures part { result ≡ is_part byte }
{
    byte.is_ascii_alphanumeric() || byte == b'_'
}

fn are_parts(bytes: &[u8]) -> bool
    ensures parts { result ≡ list_all is_part bytes.now }
{
    bytes.iter().all(|byte| is_part(*byte))
}

/// Whether a text is an `<id>` (RFC 7047 section 3.1): a letter or `_`, and then letters, digits and `_`.
pub fn is_id(text: &str) -> bool
    ensures id { result ≡ is_id text.now }
{
    match text.as_bytes() {
        [first, rest @ ..] => (first.is_ascii_alphabetic() || *first == b'_') && are_parts(rest),
        [] => false,
    }
}

/// Whether a text may name a table or a column: an `<id>` that doesn't begin with `_`, since such ids
/// are reserved (RFC 7047 section 3.1).
pub fn is_name(text: &str) -> bool
    ensures name { result ≡ is_name text.now }
{
    match text.as_bytes() {
        [first, rest @ ..] => first.is_ascii_alphabetic() && are_parts(rest),
        [] => false,
    }
}
