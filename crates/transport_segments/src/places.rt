//! The map from the places of a datagram to the bytes that came, as a list of places.

ghost use Rattle.std.specs.Prelude.{◌≡◌, ℕ, ◌+◌, ◌<◌, ◌≤◌, ◌++◌, ◌↔◌, length, replicate, Some, None, IsTrue, OnOk};
ghost use Rattle.transport_segments.specs.Places.{written, IsMissing, IsThere, IsFull, present};

use zw_base::{Bytes, NoMemory};

/// Forgets every byte.
pub fn forget(places: &mut [Option<u8>])
    ensures { places.new ≡ replicate (length places.old) None }
{
    places.fill(None);
}

/// Puts a payload in the places from `offset` on.
pub fn write(places: &mut [Option<u8>], offset: usize, payload: &[u8])
    requires { offset + length payload.now ≤ length places.old }
    ensures { places.new ≡ written places.old offset payload.now }
{
    for (i, byte) in payload.iter().enumerate() {
        places[offset + i] = Some(*byte);
    }
}

/// The first place for which no byte came, or the number of places.
pub fn least_missing(places: &[Option<u8>]) -> usize
    ensures before { (at : ℕ) → at < result → IsThere places.now at }
    ensures missing { result < length places.now → IsMissing places.now result }
    ensures within { result ≤ length places.now }
{
    for (i, place) in places.iter().enumerate() {
        if place.is_none() {
            return i;
        }
    }
    places.len()
}

/// Whether a byte came for each place.
pub fn is_full(places: &[Option<u8>]) -> bool
    ensures { IsTrue result ↔ IsFull places.now }
{
    least_missing(places) == places.len()
}

/// Adds the bytes that came, in the order of their places.
pub fn append_present(bytes: &mut Bytes, places: &[Option<u8>]) -> Result<(), NoMemory>
    ensures { OnOk result (bytes.new ≡ bytes.old ++ present places.now) }
{
    for place in places {
        match place {
            Some(byte) => bytes.push(*byte)?,
            None => {}
        }
    }
    Ok(())
}
