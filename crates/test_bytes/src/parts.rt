//! Tables of bytes: a line is a part, and a part is a count and that many bytes.

/// The first part of a table, and what follows it.
pub fn part(table: &[u8]) -> Option<(&[u8], &[u8])> {
    let (count, rest) = table.split_first()?;
    let count = usize::from(*count);
    if rest.len() < count {
        return None;
    }
    Some(rest.split_at(count))
}
