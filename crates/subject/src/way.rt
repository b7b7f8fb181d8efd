/// An open way leads the cable from one place to another, in that direction.
///
/// It adds a charge to a run, and loses signal, in tenths of a decibel.
#[derive(Clone, Copy, Debug)]
pub struct Way<C> {
    pub from: usize,
    pub to: usize,
    pub charge: C,
    pub loss: u16,
}
