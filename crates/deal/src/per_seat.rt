// One thing for each seat: a file, a sheet, a seat that a sheet names.

#[derive(Clone, Copy, Debug, PartialEq, Eq, Drop)]
pub struct PerSeat<T> {
    pub first: T,
    pub second: T,
}
