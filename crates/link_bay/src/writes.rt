// What a provider in memory keeps of each write.

/// How many bytes a write took, and how many had been handed out on its connection by then.
#[derive(Clone, Copy, Debug, PartialEq, Eq)]
pub struct Write {
    pub taken: usize,
    pub given: usize,
}
