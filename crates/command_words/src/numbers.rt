// Numbers among the words.
ghost use Rattle.std.specs.Prelude.{◌≡◌, ◌≤◌, IfSome, length};
ghost use Rattle.command_words.specs.Numbers.{digits_after, number_in};

// The number that the digits spell.
fn digits(text: &[u8]) -> Option<u64>
    requires { length text.now ≤ 10 }
    ensures { result ≡ digits_after 0 text.now }
{
    let mut number = 0u64;
    for byte in text {
        if *byte < b'0' || b'9' < *byte {
            return None;
        }
        number = 10 * number + u64::from(*byte - b'0');
    }
    Some(number)
}

/// The number that 1 to 10 digits spell, if it is within the limits.
pub(crate) fn number_in(text: &str, low: u32, high: u32) -> Option<u32>
    ensures value { result ≡ number_in low high text.now }
    ensures limits { IfSome result (λ n. (low ≤ n) × (n ≤ high)) }
{
    if text.is_empty() || text.len() > 10 {
        return None;
    }
    match digits(text.as_bytes()) {
        Some(n) if u64::from(low) <= n && n <= u64::from(high) => Some(n as u32),
        _ => None,
    }
}
