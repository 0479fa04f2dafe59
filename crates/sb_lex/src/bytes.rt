//! Which bytes are letters, digits, white space and the like (C99 5.2.1, 6.4.2.1).
ghost use Rattle.std.specs.Prelude.{◌≡◌};
ghost use Rattle.sb_lex.specs.Items.{is_basic, is_blank, is_digit, is_graphic, is_hex_digit, is_letter, is_word_byte};

pub(crate) fn is_digit(byte: u8) -> bool
    ensures { result ≡ is_digit byte }
{
    byte >= b'0' && byte <= b'9'
}

/// A letter or an underline.
pub(crate) fn is_letter(byte: u8) -> bool
    ensures { result ≡ is_letter byte }
{
    byte >= b'a' && byte <= b'z' || byte >= b'A' && byte <= b'Z' || byte == b'_'
}

pub(crate) fn is_word_byte(byte: u8) -> bool
    ensures { result ≡ is_word_byte byte }
{
    is_letter(byte) || is_digit(byte)
}

pub(crate) fn is_hex_digit(byte: u8) -> bool
    ensures { result ≡ is_hex_digit byte }
{
    is_digit(byte) || byte >= b'a' && byte <= b'f' || byte >= b'A' && byte <= b'F'
}

/// White space within a line: a space, a tab, a vertical tab or a form feed.
pub(crate) fn is_blank(byte: u8) -> bool
    ensures { result ≡ is_blank byte }
{
    byte == b' ' || byte == b'\t' || byte == 11 || byte == 12
}

/// A visible character of ASCII that is no letter, digit or underline, but for `$`, `@` and the grave accent.
pub(crate) fn is_graphic(byte: u8) -> bool
    ensures { result ≡ is_graphic byte }
{
    byte >= b'!' && byte <= b'#'
        || byte >= b'%' && byte <= b'/'
        || byte >= b':' && byte <= b'?'
        || byte >= b'[' && byte <= b'^'
        || byte >= b'{' && byte <= b'~'
}

/// A member of the basic source character set.
pub(crate) fn is_basic(byte: u8) -> bool
    ensures { result ≡ is_basic byte }
{
    is_word_byte(byte) || is_blank(byte) || is_graphic(byte)
}
