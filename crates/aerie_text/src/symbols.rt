//! Symbols: marks of one or two characters.

ghost use Rattle.std.specs.Prelude.{◌≡◌};
ghost use Rattle.aerie_text.specs.Bytes.{begins_with};
ghost use Rattle.aerie_text.specs.Symbols.{begins_double_symbol, is_single_symbol, symbol_len};

/// How long the symbol in front is, as long as can be, or `None` where there is none.
#[tactic(auto, unfolding(crate::specs::Symbols::symbol_len))]
pub fn symbol_len(bytes: &[u8]) -> Option<usize>
    ensures { result ≡ symbol_len bytes.now }
{
    if begins_double_symbol(bytes) {
        Some(2)
    } else if begins_single_symbol(bytes) {
        Some(1)
    } else {
        None
    }
}

/// Whether a symbol of two characters stands in front.
fn begins_double_symbol(bytes: &[u8]) -> bool
    ensures { result ≡ begins_double_symbol bytes.now }
{
    match bytes {
        [b':' | b'+' | b'=' | b'!' | b'<' | b'>', b'=', ..] => true,
        [b'&', b'&', ..] | [b'|', b'|', ..] | [b'-', b'>', ..] => true,
        _ => false,
    }
}

/// Whether a symbol of one character stands in front.
fn begins_single_symbol(bytes: &[u8]) -> bool
    ensures { result ≡ begins_with is_single_symbol bytes.now }
{
    match bytes {
        [] => false,
        [first, ..] => is_single_symbol(*first),
    }
}

fn is_single_symbol(byte: u8) -> bool
    ensures { result ≡ is_single_symbol byte }
{
    match byte {
        b'{' | b'}' | b'(' | b')' | b'[' | b']' => true,
        b',' | b';' | b':' | b'.' | b'=' => true,
        b'+' | b'-' | b'*' | b'/' | b'%' | b'!' | b'<' | b'>' => true,
        _ => false,
    }
}
