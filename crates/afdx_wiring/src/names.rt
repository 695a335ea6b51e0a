//! The names of switches, and the ends of wires as they are written.

ghost use Rattle.std.specs.Prelude.{◌≡◌, ◌==◌, option_map, position};
ghost use Rattle.std.specs.List.{list_all};
ghost use Rattle.afdx_wiring.specs.Names.{is_name_byte, is_name, port_in, end_in};

/// The most bytes of a switch's name.
const MAX_NAME: usize = 16;

/// Returns whether a switch's name may have this byte: an ASCII letter or digit, `-` or `_`.
fn is_name_byte(byte: u8) -> bool
    ensures { result ≡ is_name_byte byte }
{
    matches!(byte, b'0'..=b'9' | b'A'..=b'Z' | b'a'..=b'z' | b'-' | b'_')
}

/// Returns whether a switch's name may have each of these bytes.
fn are_name_bytes(text: &[u8]) -> bool
    ensures { result ≡ list_all is_name_byte text.now }
{
    text.iter().all(|byte| is_name_byte(*byte))
}

/// Returns whether a switch may have this name.
pub(crate) fn is_name(text: &[u8]) -> bool
    ensures { result ≡ is_name text.now }
{
    1 <= text.len() && text.len() <= MAX_NAME && are_name_bytes(text)
}

/// Reads the number of a port, from 1 to 24, with no zero before it.
fn port_in(text: &[u8]) -> Option<u8>
    ensures { result ≡ port_in text.now }
{
    match text {
        [ones @ b'1'..=b'9'] => Some(ones - b'0'),
        [b'1', ones @ b'0'..=b'9'] => Some(10 + ones - b'0'),
        [b'2', ones @ b'0'..=b'4'] => Some(20 + ones - b'0'),
        _ => None,
    }
}

/// Returns the place of the first dot.
fn dot_in(text: &[u8]) -> Option<usize>
    ensures { result ≡ position (λ b. b == 46) text.now }
{
    text.iter().position(|byte| *byte == b'.')
}

/// Reads the name of a switch and the number of a port, as `A.3`.
pub(crate) fn end_in(text: &[u8]) -> Option<(&[u8], u8)>
    ensures { option_map (λ e. (e.0.now, e.1)) result ≡ end_in text.now }
{
    let dot = dot_in(text)?;
    let name = &text[..dot];
    if !is_name(name) {
        return None;
    }
    let port = port_in(&text[dot + 1..])?;
    Some((name, port))
}
