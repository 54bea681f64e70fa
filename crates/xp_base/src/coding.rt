// How pixels are coded.

/// How the pixels of a draw are coded.
#[derive(Clone, Copy, Debug, PartialEq, Eq, PartialOrd, Ord, Hash)]
pub enum Coding {
    /// Four bytes a pixel, which show the pixel itself.
    Exact,
    /// Two bytes a pixel, which show a colour near it.
    Lossy,
}
