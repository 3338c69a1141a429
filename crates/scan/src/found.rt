// What a scan finds: the answer, and how many rows are behind it.
#[derive(Clone, Copy)]
pub struct Scanned<A> {
    pub answer: A,
    pub rows: u32,
}

// What some rows come to: the join of their values, and how many they are.
#[derive(Clone, Copy)]
pub(crate) struct Gathered<V> {
    pub(crate) value: V,
    pub(crate) rows: usize,
}
