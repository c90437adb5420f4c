//! Which part of a value each of its segments carries, and whether they were as many bytes as announced.
ghost use Rattle.std.specs.Prelude.{◌≡◌};
ghost use Rattle.sdo.specs.Segments.{differs, segment, SegmentsJoin};

/// The part of a value that a segment carries, by the segment's number from 1 on; no bytes for 0 and past the end.
pub fn segment(value: &[u8], number: usize) -> &[u8]
    ensures { result.now ≡ segment number value.now }
{
    if number == 0 || number - 1 > value.len() / 7 {
        return &[];
    }
    let start = 7 * (number - 1);
    if value.len() - start < 7 {
        return &value[start..];
    }
    &value[start..start + 7]
}

/// States that the first segments of a value, one behind the other, are the front of the value.
pub fn segments_join()
    ensures { SegmentsJoin }
{}

/// Whether an announced size differs from a number of bytes; none differs where none was announced.
pub fn differs(size: Option<u32>, len: usize) -> bool
    ensures { result ≡ differs size len }
{
    size.is_some_and(|size| size as usize != len)
}
