// The kinds of bytes that tags and questions are made of.
ghost use Rattle.std.specs.Prelude.{◌≡◌};
ghost use Rattle.names.specs.Bytes.{white, name_start, name_byte};

pub fn is_white(b: u8) -> bool
    ensures { result ≡ white b }
{
    matches!(b, b' ' | b'\t' | b'\r' | b'\n')
}

pub fn starts_name(b: u8) -> bool
    ensures { result ≡ name_start b }
{
    matches!(b, b'A'..=b'Z' | b'a'..=b'z' | b'_')
}

pub fn continues_name(b: u8) -> bool
    ensures { result ≡ name_byte b }
{
    starts_name(b) || matches!(b, b'0'..=b'9' | b'-' | b'.')
}
