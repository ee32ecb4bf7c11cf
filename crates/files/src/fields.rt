// Numbers that stand right-justified with blanks in columns.
ghost use Rattle.std.specs.Prelude.{◌≡◌};
ghost use Rattle.files.specs.Fields.{Under, column as one_more, read as read_in};

// One more byte of a field, of which a number was read so far, or None while only blanks came. None where the byte
// breaks the field: a blank after a digit, a digit after the digit 0 alone, or any other byte.
fn column(read: Option<u16>, b: u8) -> Option<Option<u16>>
    requires { Under 1000 read }
    ensures { result ≡ one_more read b }
{
    match (read, b) {
        (None, b' ') => Some(None),
        (None, b'0'..=b'9') => Some(Some((b - b'0') as u16)),
        (Some(n), b'0'..=b'9') if n > 0 => Some(Some(n * 10 + (b - b'0') as u16)),
        _ => None,
    }
}

// The number that stands right-justified with blanks in exactly four columns, with no needless zero.
pub fn read_four(s: &[u8]) -> Option<u16>
    ensures { result ≡ read_in 4 s.now }
{
    if s.len() != 4 {
        return None;
    }
    let mut read = None;
    for b in s {
        read = column(read, *b)?;
    }
    read
}
