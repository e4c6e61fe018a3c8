/// At most two items, in order.
#[derive(Clone, Copy, Debug)]
pub enum UpToTwo<T> {
    Zero,
    One(T),
    Two(T, T),
}
