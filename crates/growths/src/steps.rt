// The commands, in the order in which they are applied, with their answers if no growth is refused.

use crate::asked::Asked;

/// The name of a command, the command, and its answer.
pub(crate) type Step = (&'static str, Asked, &'static str);

/// The commands, in the order in which they are applied. After them, `a` and `b` are installed, and
/// `b` is the preload.
pub(crate) const STEPS: [Step; 11] = [
    ("install a:", Asked::Install(b'a', 0), "ok"),
    ("install b:", Asked::Install(b'b', 0), "ok"),
    ("install c:", Asked::Install(b'c', 0), "ok"),
    ("install a again:", Asked::Install(b'a', 1), "C2"),
    ("replace a:", Asked::Replace(b'a', 1), "ok"),
    ("replace d:", Asked::Replace(b'd', 0), "C3"),
    ("preload b:", Asked::Preload(&[b"b"]), "ok"),
    ("remove c:", Asked::Remove(b"c"), "ok"),
    ("list:", Asked::List, "list a b preload b"),
    ("bind of what needs a:", Asked::Bind(b'a'), "image"),
    ("bind of what needs d:", Asked::Bind(b'd'), "B3"),
];
