//! The places where the code of a key may stand.

ghost use Rattle.std.specs.Prelude.{◌≡◌, ◌<◌, ◌≤◌, ◌%◌};
ghost use Rattle.place_table.specs.Ways.{hash, way_at, way_count};

/// The first way of a key.
pub(crate) fn first_way(key: &[u64; 6], places: u32) -> u32
    requires some { 1 ≤ places }
    ensures { result ≡ hash key.now % places }
{
    let sum = 31 * key[0] as u128
        + 131 * key[1] as u128
        + 8191 * key[2] as u128
        + 524287 * key[3] as u128
        + 2147483647 * key[4] as u128
        + 7 * key[5] as u128;
    let hash = (sum % 18446744073709551616) as u64;
    (hash % places as u64) as u32
}

/// How many ways each key has.
pub(crate) fn count_of(places: u32) -> u32
    ensures value { result ≡ way_count places }
    ensures few { result ≤ 4 }
{
    if places < 4 { places } else { 4 }
}
