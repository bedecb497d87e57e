// Sets of bytes that several forms of records share.
ghost use Rattle.std.specs.Prelude.{◌≡◌};
ghost use Rattle.sg_msg.specs.Sets.{is_print, is_sd_byte, is_escaped};

/// Whether the byte is a printing ASCII character and no space (RFC 5424, section 6: PRINTUSASCII).
pub fn is_print(byte: u8) -> bool
    ensures { result ≡ is_print byte }
{
    byte >= 33 && byte <= 126
}

/// Whether a name of structured data may have the byte: a printing one but for `=`, `]` and `"`
/// (RFC 5424, section 6: SD-NAME).
pub fn is_sd_byte(byte: u8) -> bool
    ensures { result ≡ is_sd_byte byte }
{
    is_print(byte) && byte != b'=' && byte != b']' && byte != b'"'
}

/// Whether the byte stands behind a backslash in a parameter's value: `"`, `\` or `]` (RFC 5424,
/// section 6.3.3).
pub fn is_escaped(byte: u8) -> bool
    ensures { result ≡ is_escaped byte }
{
    byte == b'"' || byte == b'\\' || byte == b']'
}
