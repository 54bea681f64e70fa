// Integers, byte strings, lists and dictionaries.
use xp_base::Bytes;

/// The values of a list, in order.
pub type Items = sqlite_items::Items<Value>;

/// The pairs of a dictionary, as they stand: keys in any order, repeats kept.
pub type Pairs = sqlite_items::Items<Pair>;

/// A key of a dictionary: an integer or a string of bytes. (BEP 3 itself has strings alone.)
#[derive(Debug, Drop)]
pub enum Key {
    Int(i64),
    Bytes(Bytes),
}

/// A value, of one of BEP 3's four forms. This project's limits are that byte strings have at most
/// 67,108,864 bytes, and that at most 32 lists and dictionaries are one inside another.
#[cycle(value)]
#[derive(Debug, Drop)]
pub enum Value {
    Int(i64),
    Bytes(Bytes),
    List(Items),
    Dict(Pairs),
}

/// A key of a dictionary with its value.
#[cycle(value)]
#[derive(Debug, Drop)]
pub struct Pair {
    pub key: Key,
    pub value: Value,
}
