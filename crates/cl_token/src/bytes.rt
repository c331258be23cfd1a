//! The classes of the bytes of a source.

ghost use Rattle.std.specs.Prelude.{◌≡◌, slice_index};
ghost use Rattle.std.specs.List.{prefix_len};
ghost use Rattle.cl_token.specs.Bytes as class;

/// The byte at an index, and 0 past the end.
pub(crate) fn byte_at(bytes: &[u8], index: usize) -> u8
    ensures { result ≡ slice_index bytes.now index }
{
    bytes.get(index).copied().unwrap_or(0)
}

pub(crate) fn is_digit(byte: u8) -> bool
    ensures { result ≡ class.is_digit byte }
{
    b'0' <= byte && byte <= b'9'
}

pub(crate) fn is_octal_digit(byte: u8) -> bool
    ensures { result ≡ class.is_octal_digit byte }
{
    b'0' <= byte && byte <= b'7'
}

pub(crate) fn is_hexadecimal_digit(byte: u8) -> bool
    ensures { result ≡ class.is_hexadecimal_digit byte }
{
    is_digit(byte) || b'a' <= byte && byte <= b'f' || b'A' <= byte && byte <= b'F'
}

/// Whether a byte may begin an identifier (C99, section 6.4.2.1).
pub fn is_name_start(byte: u8) -> bool
    ensures { result ≡ class.is_name_start byte }
{
    b'a' <= byte && byte <= b'z' || b'A' <= byte && byte <= b'Z' || byte == b'_'
}

/// Whether a byte may stand in an identifier (C99, section 6.4.2.1).
pub fn is_name_byte(byte: u8) -> bool
    ensures { result ≡ class.is_name_byte byte }
{
    is_name_start(byte) || is_digit(byte)
}

pub(crate) fn is_number_byte(byte: u8) -> bool
    ensures { result ≡ class.is_number_byte byte }
{
    is_name_byte(byte) || byte == b'.'
}

/// How many bytes at the head may stand in a name.
pub(crate) fn name_length(bytes: &[u8]) -> usize
    ensures { result ≡ prefix_len class.is_name_byte bytes.now }
{
    bytes.iter().take_while(|byte| is_name_byte(**byte)).count()
}

/// How many bytes at the head may stand in a number.
pub(crate) fn number_length(bytes: &[u8]) -> usize
    ensures { result ≡ prefix_len class.is_number_byte bytes.now }
{
    bytes
        .iter()
        .take_while(|byte| is_number_byte(**byte))
        .count()
}
