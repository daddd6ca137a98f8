ghost use Rattle.std.specs.Prelude.{◌≡◌};
ghost use Rattle.std.specs.List.{list_all};
ghost use Rattle.std.specs.Char.{is_ascii_digit};
ghost use Rattle.nb_cli.specs.Command.{is_number as is_number_text, is_positive as is_positive_text, number as number_between, within as number_within};

/// The number from `least` to `most` that the text is: `0`, or digits of which the first isn't `0`. It takes no
/// memory, and time linear in the text.
pub fn number(least: u32, most: u32, text: &str) -> Option<u32>
    ensures { result ≡ number_between least most text.now }
{
    if is_number(text.as_bytes()) {
        within(least, most, text.parse::<u32>().ok())
    } else {
        None
    }
}

fn within(least: u32, most: u32, value: Option<u32>) -> Option<u32>
    ensures { result ≡ number_within least most value }
{
    let value = value?;
    if least <= value && value <= most {
        Some(value)
    } else {
        None
    }
}

fn is_number(text: &[u8]) -> bool
    ensures { result ≡ is_number_text text.now }
{
    text == b"0".as_slice() || is_positive(text)
}

fn is_positive(text: &[u8]) -> bool
    ensures { result ≡ is_positive_text text.now }
{
    match text.split_first() {
        Some((first, others)) => (b'1'..=b'9').contains(first) && are_digits(others),
        None => false,
    }
}

fn are_digits(text: &[u8]) -> bool
    ensures { result ≡ list_all is_ascii_digit text.now }
{
    text.iter().all(|digit| digit.is_ascii_digit())
}
