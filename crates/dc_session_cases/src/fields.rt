//! The fields of a line: bytes in hexadecimal digits, and lists of numbers. `-` is an empty field.

use std::alloc::Global;

/// What stands between two fields of an answer. No fault line has it.
const BETWEEN: &str = " | ";

/// The bytes of a field of hexadecimal digits.
pub fn bytes_of(alloc: Global, field: &str) -> Option<Vec<u8>> {
    if field == "-" {
        return Some(Vec::new(alloc));
    }
    hex::decode(alloc, field).ok()
}

/// The numbers of a field that has commas between them.
pub fn numbers_of(alloc: Global, field: &str) -> Option<Vec<u32>> {
    let mut numbers = Vec::new(alloc);
    if field == "-" {
        return Some(numbers);
    }
    for number in field.split(',') {
        numbers.push(number.parse::<u32>().ok()?).ok()?;
    }
    Some(numbers)
}

/// Appends a field after what stands between two.
pub fn push_field(answer: &mut String, field: &str) -> Option<()> {
    answer.push_str(BETWEEN).ok()?;
    answer
        .push_str(if field.is_empty() { "-" } else { field })
        .ok()
}

/// Appends a field of bytes.
pub fn push_bytes(alloc: Global, answer: &mut String, bytes: &[u8]) -> Option<()> {
    push_field(answer, hex::encode(alloc, bytes).ok()?.as_str())
}
