use hexdigits::{hex, unhex};
use objects::decode::decode_into;
use objects::error::Reason;
use reader::lent::Lent;
use std::alloc::{AllocError, Global};

// What a text decodes to in a buffer so many bytes shorter than the text, both in hexadecimal digits;
// `lone` where it ends in a lone backslash, and `short` where the buffer is too short.
pub(crate) fn answer(heap: Global, digits: &str, lacking: usize) -> Result<String, AllocError> {
    let text = unhex(heap, digits.as_bytes())?;
    let mut buffer = vec![in heap; 0u8; text.len().saturating_sub(lacking)]?;
    match decode_into(&Lent::new(&text), &mut buffer) {
        Ok(count) => hex(heap, &buffer[..count]),
        Err(refusal) => match refusal.reason {
            Reason::LoneBackslash => String::from_str(heap, "lone"),
            Reason::ShortBuffer => String::from_str(heap, "short"),
            reason => format!(in heap; "refused {}", reason.number()),
        },
    }
}
