// How a term comes to be known without others.
#[derive(Clone, Copy)]
pub(crate) enum Given {
    // A name that the adversary made, by its number.
    Name(u64),
    // A public name.
    Public,
    // A term that was sent.
    Output,
}

// An origin as it is stored.
#[derive(Clone, Copy)]
pub(crate) enum StoredOrigin {
    Given(Given),
    // The symbol of this place among the symbols, on so many entries of a list, from a place on.
    Applied { symbol: u64, from: u64, count: u64 },
}
