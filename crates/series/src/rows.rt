// The row of a dated series.

/// A value and the day that it is dated, written yyyymmdd. Nothing is known of either before a series takes it.
#[derive(Clone, Copy, PartialEq, Eq, Debug)]
pub struct Dated<V> {
    /// The day.
    pub date: u32,
    /// What holds from that day on.
    pub value: V,
}
