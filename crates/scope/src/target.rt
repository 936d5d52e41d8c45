// The targets of symbols.

/// The target of a symbol.
#[derive(Clone, Copy, PartialEq, Eq)]
pub enum Target {
    /// The number 0.
    Zero,
    /// A symbol of an object.
    At {
        /// The object's place in load order.
        object: usize,
        /// The symbol's index in that object.
        symbol: u32,
    },
}

/// The symbol isn't bound: no object defines it, and it isn't weak.
#[derive(Clone, Copy, PartialEq, Eq)]
pub struct Undefined;
