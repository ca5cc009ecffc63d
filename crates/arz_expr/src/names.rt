// Words of the grammar: keys, names, indexes and pointers.
ghost use Rattle.std.specs.Prelude.{◌≡◌, option_map};
ghost use Rattle.std.specs.Option.{option_copied};
ghost use Rattle.std.specs.List.{list_all};
ghost use Rattle.std.specs.Char.{is_ascii_digit};
ghost use Rattle.arz_expr.specs.Grammar.{is_name_byte as is_byte_of_name, is_pointer as is_pointer_text, is_pointer_byte as is_byte_of_pointer, escapes_tildes as escapes_each_tilde, begins_with_digit_of_escape, is_rooted as is_rooted_text};
ghost use Rattle.arz_expr.specs.Reading.{after as after_key, cut as cut_text, name_at, index_in, is_index as is_index_text};

/// What follows a key, where the text begins with it.
pub(crate) fn after<'a>(text: &'a str, key: &str) -> Option<&'a str>
    ensures { option_copied result ≡ after_key key.now text.now }
{
    text.strip_prefix(key)
}

fn is_name_byte(byte: u8) -> bool
    ensures { result ≡ is_byte_of_name byte }
{
    byte.is_ascii_alphanumeric() || byte == b'_' || byte == b'-'
}

/// The longest run of bytes of a name, and what follows it.
fn cut(text: &str) -> (&str, &str)
    ensures front { result.0.now ≡ (cut_text text.now).0 }
    ensures rest { result.1.now ≡ (cut_text text.now).1 }
{
    let bytes = text.as_bytes();
    let mut end = 0;
    while end < bytes.len() && is_name_byte(bytes[end]) {
        end += 1;
    }
    text.split_at(end)
}

/// A name, and what follows it.
#[tactic(auto, unfolding(crate::specs::Reading::name_at))]
pub(crate) fn name(text: &str) -> Option<(&str, &str)>
    ensures { option_map (λ n. (n.0.now, n.1.now)) result ≡ name_at text.now }
{
    let (front, rest) = cut(text);
    if front.is_empty() {
        None
    } else {
        Some((front, rest))
    }
}

/// The number that up to 18 digits without a leading zero spell.
#[tactic(auto, unfolding(crate::specs::Reading::index_in))]
pub(crate) fn index(digits: &str) -> Option<u64>
    ensures { result ≡ index_in digits.now }
{
    if !is_index(digits.as_bytes()) {
        return None;
    }
    digits.parse().ok()
}

fn is_index(digits: &[u8]) -> bool
    ensures { result ≡ is_index_text digits.now }
{
    !digits.is_empty()
        && digits.len() <= 18
        && all_digits(digits)
        && (digits.len() == 1 || digits[0] != b'0')
}

fn all_digits(digits: &[u8]) -> bool
    ensures { result ≡ list_all is_ascii_digit digits.now }
{
    digits.iter().all(|b| b.is_ascii_digit())
}

/// Whether the text is a JSON Pointer (RFC 6901, section 3) that may stand in an expression.
pub(crate) fn is_pointer(text: &str) -> bool
    ensures { result ≡ is_pointer_text text.now }
{
    let bytes = text.as_bytes();
    is_rooted(bytes) && all_pointer_bytes(bytes) && escapes_tildes(bytes)
}

fn is_rooted(bytes: &[u8]) -> bool
    ensures { result ≡ is_rooted_text bytes.now }
{
    match bytes.split_first() {
        Some((first, _)) => *first == b'/',
        None => true,
    }
}

fn all_pointer_bytes(bytes: &[u8]) -> bool
    ensures { result ≡ list_all is_byte_of_pointer bytes.now }
{
    bytes.iter().all(|b| is_pointer_byte(*b))
}

fn is_pointer_byte(byte: u8) -> bool
    ensures { result ≡ is_byte_of_pointer byte }
{
    32 < byte && byte != 127 && !b"{}()!=<>&|'".contains(&byte)
}

fn escapes_tildes(bytes: &[u8]) -> bool
    ensures { result ≡ escapes_each_tilde bytes.now }
{
    let mut rest = bytes;
    'bytes: while let Some((byte, more)) = rest.split_first() {
        if *byte == b'~' && !begins_escape(more) {
            return false;
        }
        rest = more;
    }
    true
}

fn begins_escape(bytes: &[u8]) -> bool
    ensures { result ≡ begins_with_digit_of_escape bytes.now }
{
    match bytes.split_first() {
        Some((first, _)) => *first == b'0' || *first == b'1',
        None => false,
    }
}
