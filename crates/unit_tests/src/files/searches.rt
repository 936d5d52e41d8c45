// Compares the search by chains with a plain search.

use elf_dynamic::Object;
use hash_check::{AdmitRefusal, Admitted, elf_hash};
use std::alloc::Global;

/// A library named `q` with two buckets. It exports `f` and `g`, and refers to `u`.
pub(crate) fn library() -> &'static [u8] {
    b"\x7fELF\x02\x01\x01\0\0\0\0\0\0\0\0\0\x03\0>\0\x01\0\0\0\0\0\0\0\0\0\0\0@\0\0\0\0\0\0\
        \0\0\0\0\0\0\0\0\0\0\0\0\0@\08\0\x02\0\0\0\0\0\0\0\x01\0\0\0\x06\0\0\0\0\0\0\0\0\0\0\
        \0\0\0\0\0\0\0\0\0\0\0\0\0\0\0\0\0\xb0\x01\0\0\0\0\0\0\xb0\x01\0\0\0\0\0\0\0\x10\0\0\
        \0\0\0\0\x02\0\0\0\x06\0\0\0@\x01\0\0\0\0\0\0@\x01\0\0\0\0\0\0@\x01\0\0\0\0\0\0p\0\0\
        \0\0\0\0\0p\0\0\0\0\0\0\0\x08\0\0\0\0\0\0\0\x02\0\0\0\x04\0\0\0\x01\0\0\0\x02\0\0\0\0\
        \0\0\0\0\0\0\0\x03\0\0\0\0\0\0\0\0\0\0\0\0\0\0\0\0\0\0\0\0\0\0\0\0\0\0\0\0\0\0\0\x03\
        \0\0\0\x12\0\x01\0\xa8\x01\0\0\0\0\0\0\x08\0\0\0\0\0\0\0\x05\0\0\0\x12\0\x01\0\xa8\x01\
        \0\0\0\0\0\0\x08\0\0\0\0\0\0\0\x07\0\0\0\x10\0\0\0\xa8\x01\0\0\0\0\0\0\x08\0\0\0\0\0\
        \0\0\0q\0f\0g\0u\0\0\0\0\0\0\0\0\x0e\0\0\0\0\0\0\0\x01\0\0\0\0\0\0\0\x04\0\0\0\0\0\0\
        \0\xb0\0\0\0\0\0\0\0\x05\0\0\0\0\0\0\00\x01\0\0\0\0\0\0\x06\0\0\0\0\0\0\0\xd0\0\0\0\0\
        \0\0\0\x0a\0\0\0\0\0\0\0\x09\0\0\0\0\0\0\0\x0b\0\0\0\0\0\0\0\x18\0\0\0\0\0\0\0\0\0\0\
        \0\0\0\0\0\0\0\0\0\0\0\0\0"
}

/// The offset of the buckets in the library. The chain words follow them.
const BUCKETS: usize = 184;

/// Writes the words of table number `n`: two buckets and four chain words, each from 0 to 4.
fn put_words(file: &mut [u8], n: u32) {
    let mut rest = n;
    for i in 0..6 {
        if let Some(byte) = file.get_mut(BUCKETS + 4 * i) {
            *byte = (rest % 5) as u8;
        }
        rest /= 5;
    }
}

/// Returns whether symbol `i` is exported, computed from the numbers of the standard.
fn is_exported(object: &Object<'_>, i: u32) -> bool {
    if i == 0 || i >= object.symbol_count() {
        return false;
    }
    let symbol = object.symbol(i);
    (symbol.binding() == 1 || symbol.binding() == 2)
        && symbol.section != 0
        && symbol.kind() <= 2
        && (symbol.visibility() == 0 || symbol.visibility() == 3)
}

/// Returns whether the walk from word `from` reaches `index` within as many steps as there are
/// symbols.
fn meets(object: &Object<'_>, from: u32, index: u32) -> bool {
    let count = object.symbol_count();
    let mut at = from;
    for _ in 0..count {
        if at == index {
            return true;
        }
        if at == 0 || at >= count {
            return false;
        }
        at = object.chain(at);
    }
    false
}

/// Returns whether the hash table is good. Follows each walk separately.
fn is_plainly_good(object: &Object<'_>) -> bool {
    let count = object.symbol_count();
    let buckets = object.bucket_count();
    for i in 0..buckets {
        if !meets(object, object.bucket(i), 0) {
            return false;
        }
    }
    for i in 0..count {
        if object.chain(i) >= count {
            return false;
        }
        if is_exported(object, i) {
            let hash = elf_hash(object.name_of(i));
            if buckets == 0 || !meets(object, object.bucket(hash % buckets), i) {
                return false;
            }
        }
    }
    buckets > 0
}

/// Returns the symbol that is exported under `name`. Looks at every symbol.
fn find_plainly(object: &Object<'_>, name: &[u8]) -> Option<u32> {
    for i in 1..object.symbol_count() {
        if is_exported(object, i) && object.name_of(i) == name {
            return Some(i);
        }
    }
    None
}

/// Names that the library exports, and names that it doesn't.
static NAMES: [&[u8]; 6] = [b"f", b"g", b"u", b"", b"fg", b"f\0g"];

/// Returns whether, for each name, the search finds the same symbol as a plain search, and whether
/// the symbols and the library have their names.
fn finds_plainly(admitted: &Admitted<'_>) -> bool {
    for &name in &NAMES {
        if admitted.find(name) != find_plainly(admitted.object(), name) {
            return false;
        }
    }
    admitted.name_at(2) == b"g".as_slice()
        && admitted.name_at(4).is_empty()
        && admitted.library_name() == Ok(b"q".as_slice())
}

/// Returns whether a table is admitted, and whether admission agrees with `is_plainly_good` and
/// each search with `find_plainly`.
fn compare(alloc: Global, file: &[u8]) -> (bool, bool) {
    let Ok(object) = Object::read(file) else {
        return (false, false);
    };
    let good = is_plainly_good(&object);
    match Admitted::admit(alloc, object) {
        Ok(admitted) => (true, good && finds_plainly(&admitted)),
        Err(refusal) => (false, !good && refusal == AdmitRefusal::BadHashTable),
    }
}

#[test]
fn finds_as_a_plain_search_does(rt: HostRuntime) {
    let mut file = Vec::from_slice(rt.alloc(), library()).unwrap_or(Vec::new(rt.alloc()));
    let mut admitted = 0;
    for n in 0..15_625 {
        put_words(&mut file, n);
        let (is_admitted, agrees) = compare(rt.alloc(), &file);
        assert!(rt; agrees, "table {n}");
        admitted = u32::from(is_admitted).saturating_add(admitted);
    }
    assert!(rt; admitted == 180);
}
