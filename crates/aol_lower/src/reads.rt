/// The tables through which numbers of inputs are read.
///
/// `entries` is the number of the table with an entry for each read: from 0 on it is a cell of V, and -1 stands for the
/// first of the numbers of the table `numbers`, -2 for the next.
#[derive(Clone, Copy, Debug, PartialEq, Eq)]
pub struct Reads {
    pub entries: u32,
    pub numbers: u32,
}
