// One number of a state's rows changed: its row, its place and the number.
#[derive(Clone, Copy)]
pub enum Change {
    Word(usize, usize, u64),
    Float(usize, usize, f64),
}
