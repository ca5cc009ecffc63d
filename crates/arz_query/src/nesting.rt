// The count of brackets and parentheses that are open.
ghost use Rattle.std.specs.Prelude.{◌≡◌, ◌≤◌, Some, None};
ghost use Rattle.arz_query.specs.Nesting.{quoted_step, plain_step, step as next_count, too_nested as nested_too_deep};

/// How many of `[` and `(` may be open at once, the `(` of a function among them.
pub const MAX_OPEN: u64 = 64;

// Where the count stands: the quote of the quoted text that it is in, whether a backslash stands before
// the next byte there, and how many are open.
#[derive(Clone, Copy, Debug)]
struct Count {
    quote: Option<u8>,
    passes_over: bool,
    open_now: u64,
}

fn in_quotes(quote: u8, count: Count, byte: u8) -> Count
    ensures { result ≡ quoted_step quote count byte }
{
    if count.passes_over {
        return Count {
            quote: Some(quote),
            passes_over: false,
            open_now: count.open_now,
        };
    }
    if byte == b'\\' {
        return Count {
            quote: Some(quote),
            passes_over: true,
            open_now: count.open_now,
        };
    }
    if byte == quote {
        return Count {
            quote: None,
            passes_over: false,
            open_now: count.open_now,
        };
    }
    count
}

fn outside(count: Count, byte: u8) -> Count
    requires { count.open_now ≤ 64 }
    ensures { result ≡ plain_step count byte }
{
    if byte == b'\'' || byte == b'"' {
        return Count {
            quote: Some(byte),
            passes_over: false,
            open_now: count.open_now,
        };
    }
    if byte == b'[' || byte == b'(' {
        return Count {
            quote: None,
            passes_over: false,
            open_now: count.open_now + 1,
        };
    }
    if byte == b']' || byte == b')' {
        return Count {
            quote: None,
            passes_over: false,
            open_now: count.open_now.saturating_sub(1),
        };
    }
    count
}

#[tactic(auto, unfolding(crate::specs::Nesting::step))]
fn next(count: Count, byte: u8) -> Count
    requires { count.open_now ≤ 64 }
    ensures { result ≡ next_count count byte }
{
    match count.quote {
        Some(quote) => in_quotes(quote, count, byte),
        None => outside(count, byte),
    }
}

/// Where a character makes more than `MAX_OPEN` open, outside quoted texts: the first one's offset. A
/// quoted text ends at the next character that is the same as its first, or at the text's end; inside it
/// a `\` and the character behind it are passed over.
pub(crate) fn too_nested(text: &[u8]) -> Option<u64>
    ensures { result ≡ nested_too_deep text.now }
{
    let mut count = Count {
        quote: None,
        passes_over: false,
        open_now: 0,
    };
    for (at, byte) in text.iter().enumerate() {
        count = next(count, *byte);
        if MAX_OPEN < count.open_now {
            return Some(at as u64);
        }
    }
    None
}
