//! Text from a scenario, as a sentence shows it. It stays on its line, whatever characters it has.
ghost use Rattle.std.specs.Prelude.{◌≡◌, true};
ghost use Rattle.std.specs.Fmt.{WritesOnOk};
ghost use Rattle.std.specs.List.{list_all};
ghost use Rattle.gs_check.specs.Shown.{is_plain, is_plain_text, quoted, ticked};

use std::fmt;

/// How many characters of a text are shown. What stands after them is left out.
const MOST_SHOWN: usize = 60;

/// A text between double quotes, such as `"6"`.
#[derive(Clone, Copy)]
pub struct Quoted<'a>(pub &'a str);

/// A place or a key between backquotes, such as `` `do[2].hex` ``.
#[derive(Clone, Copy)]
pub struct Ticked<'a>(pub &'a str);

impl<'a> fmt::Display for Quoted<'a> {
    ghost output = { λ text. quoted text.0.now };

    fn fmt<W: fmt::Write>(&self, f: &mut fmt::Formatter<W>) -> fmt::Result {
        f.write_char('"')?;
        write_front(f, self.0)?;
        f.write_char('"')
    }
}

impl<'a> fmt::Display for Ticked<'a> {
    ghost output = { λ text. ticked text.0.now };

    fn fmt<W: fmt::Write>(&self, f: &mut fmt::Formatter<W>) -> fmt::Result {
        f.write_char('`')?;
        write_front(f, self.0)?;
        f.write_char('`')
    }
}

/// Writes a text. Of a long text it writes the front, and then `...`.
fn write_front<W: fmt::Write>(f: &mut fmt::Formatter<W>, text: &str) -> fmt::Result
    ensures { is_plain_text text.now ≡ true → WritesOnOk W.write_str_gives f.old result text.now f.new }
{
    if is_plain_text(text) {
        return f.write_str(text);
    }
    for (index, character) in text.chars().enumerate() {
        if index >= MOST_SHOWN {
            return f.write_str("...");
        }
        write_escaped(f, character)?;
    }
    Ok(())
}

/// Writes a character. A double quote, a backquote and a backslash get a backslash before them. One that doesn't print is
/// written as its code.
fn write_escaped<W: fmt::Write>(f: &mut fmt::Formatter<W>, character: char) -> fmt::Result {
    match character {
        '\'' => f.write_char('\''),
        '`' => f.write_str("\\`"),
        _ => write!(f, "{}", character.escape_debug()),
    }
}

/// Says whether a text is shown unchanged: it is short, and each of its characters prints and needs no backslash.
fn is_plain_text(text: &str) -> bool
    ensures { result ≡ is_plain_text text.now }
{
    text.len() <= MOST_SHOWN && are_plain(text.as_bytes())
}

fn are_plain(bytes: &[u8]) -> bool
    ensures { result ≡ list_all is_plain bytes.now }
{
    bytes.iter().all(|&byte| is_plain(byte))
}

/// Says whether a byte is a printing character of ASCII, and no quote, backslash or backquote.
fn is_plain(byte: u8) -> bool
    ensures { result ≡ is_plain byte }
{
    (32 <= byte && byte < 127 && byte != b'"') && (byte != b'\\' && byte != b'`')
}
