// What a search finds.

// The last middle of a search, and how many middles were compared.
#[derive(Clone, Copy)]
pub struct Found {
    pub base: i64,
    pub tries: u32,
}
