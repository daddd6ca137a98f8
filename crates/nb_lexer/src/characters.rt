ghost use Rattle.std.specs.Prelude.{◌≡◌};
ghost use Rattle.std.specs.List.{prefix_len};
ghost use Rattle.nb_lexer.specs.Characters.{is_digit, is_letter, is_in_name, is_quote, is_gap, begins};

/// Whether it is a digit.
pub fn is_digit(b: u8) -> bool
    ensures { result ≡ is_digit b }
{
    b.is_ascii_digit()
}

/// Whether it is a letter, `_` or `$`.
pub fn is_letter(b: u8) -> bool
    ensures { result ≡ is_letter b }
{
    b.is_ascii_alphabetic() || b == b'_' || b == b'$'
}

/// Whether it is a letter, a digit, `_` or `$`.
pub fn is_in_name(b: u8) -> bool
    ensures { result ≡ is_in_name b }
{
    is_letter(b) || is_digit(b)
}

fn is_gap(b: u8) -> bool
    ensures { result ≡ is_gap b }
{
    b == b' ' || b == b'\t' || b == b'\n' || b == b'\r'
}

/// Whether a letter, `_` or `$` stands at the front.
pub fn begins_with_letter(text: &[u8]) -> bool
    ensures { result ≡ begins is_letter text.now }
{
    text.first().is_some_and(|b| is_letter(*b))
}

/// Whether a digit stands at the front.
pub fn begins_with_digit(text: &[u8]) -> bool
    ensures { result ≡ begins is_digit text.now }
{
    text.first().is_some_and(|b| is_digit(*b))
}

/// Whether a letter, a digit, `_` or `$` stands at the front.
pub fn begins_in_name(text: &[u8]) -> bool
    ensures { result ≡ begins is_in_name text.now }
{
    text.first().is_some_and(|b| is_in_name(*b))
}

/// Whether a quote stands at the front.
pub fn begins_with_quote(text: &[u8]) -> bool
    ensures { result ≡ begins is_quote text.now }
{
    text.first().is_some_and(|b| *b == b'"')
}

/// How many letters and digits stand at the front.
pub fn name_len(text: &[u8]) -> usize
    ensures { result ≡ prefix_len is_in_name text.now }
{
    text.iter().take_while(|b| is_in_name(**b)).count()
}

/// How many digits stand at the front.
pub fn digits_len(text: &[u8]) -> usize
    ensures { result ≡ prefix_len is_digit text.now }
{
    text.iter().take_while(|b| is_digit(**b)).count()
}

/// How many spaces, tabs and ends of lines stand at the front.
pub fn gap_len(text: &[u8]) -> usize
    ensures { result ≡ prefix_len is_gap text.now }
{
    text.iter().take_while(|b| is_gap(**b)).count()
}
