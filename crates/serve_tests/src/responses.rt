//! Responses of HTTP, as rows have them: the status, and then the body.

/// How many digits stand at the front of bytes.
fn digit_count(bytes: &[u8]) -> usize {
    bytes
        .iter()
        .take_while(|byte| byte.is_ascii_digit())
        .count()
}

/// Whether a text is the wanted one, in which each `*` stands for one or more digits.
fn is_text(text: &[u8], wanted: &[u8]) -> bool {
    let mut rest = text;
    for byte in wanted {
        let count = if *byte == b'*' { digit_count(rest) } else { 1 };
        let is_there = *byte == b'*' && count > 0 || rest.first() == Some(byte);
        match rest.get(count..) {
            Some(more) if is_there => rest = more,
            _ => return false,
        }
    }
    rest.is_empty()
}

/// The status and the body of a response.
fn parts(bytes: &[u8]) -> Option<(&str, &str)> {
    let (head, body) = str::from_utf8(bytes).ok()?.split_once("\r\n\r\n")?;
    let (line, _fields) = head.split_once("\r\n")?;
    Some((line.strip_prefix("HTTP/1.1 ")?, body))
}

/// Whether bytes are a response of that status with that body.
pub fn is_exact(bytes: &[u8], status: &str, body: &str) -> bool {
    parts(bytes) == Some((status, body))
}

/// Whether bytes are a response with the wanted status and, after a line's end, the wanted body, in which each `*` stands for digits.
pub fn is_response(bytes: &[u8], wanted: &str) -> bool {
    match (parts(bytes), wanted.split_once('\n')) {
        (Some((status, body)), Some((wanted, text))) => {
            status == wanted && is_text(body.as_bytes(), text.as_bytes())
        }
        _ => false,
    }
}
