// The roots that may follow a root.
ghost use Rattle.std.specs.Prelude.{◌≡◌, ◌+◌, ◌<◌, ◌≤◌, ◌^◌, length, map, All};
ghost use Rattle.roots.specs.Limits.{most_catalogues};
ghost use Rattle.states.specs.Limits.{most_libraries, most_preloads};
ghost use Rattle.roots.specs.Root.{RootHasSpelling, listed_preloads};
ghost use Rattle.store.specs.Stands.{catalogues_of};
ghost use Rattle.store.specs.inside.Next.{next_root};
ghost use Rattle.store.specs.inside.NameIndex.{closed_up};

use crate::listed::catalogues;
use crate::name_index::close_up;
use roots::Root;
use states::MOST_PRELOADS;

/// Returns the next root, which counts `libraries` libraries and lists `catalogues` and `preloads`.
pub(crate) fn root_over(root: &Root, libraries: usize, catalogues: &[u32], preloads: &[u16]) -> Root
    requires generation { root.now.generation + 1 < 2 ^ 64 }
    requires few { libraries ≤ most_libraries }
    requires catalogues { length catalogues.now ≤ most_catalogues }
    requires preloads { length preloads.now ≤ most_preloads }
    ensures { result ≡ next_root root.now libraries catalogues.now preloads.now }
{
    Root::over_catalogues(
        root.generation + 1,
        root.sectors,
        libraries as u16,
        catalogues,
        preloads,
    )
}

/// Returns the next root, which counts `libraries` libraries, lists `catalogues`, and keeps the
/// preloads.
pub(crate) fn next_root(root: &Root, libraries: usize, catalogues: &[u32]) -> Root
    requires fits { RootHasSpelling root.now }
    requires generation { root.now.generation + 1 < 2 ^ 64 }
    requires few { libraries ≤ most_libraries }
    requires catalogues { length catalogues.now ≤ most_catalogues }
    ensures { result ≡ next_root root.now libraries catalogues.now (listed_preloads root.now) }
{
    Root::over_catalogues(
        root.generation + 1,
        root.sectors,
        libraries as u16,
        catalogues,
        root.preload_positions(),
    )
}

/// Returns the next root after the library at position `gone` was removed. It counts `libraries`
/// libraries and lists `catalogues`, and the preloads after position `gone` move up by one
/// position.
pub(crate) fn root_without(root: &Root, libraries: usize, catalogues: &[u32], gone: usize) -> Root
    requires fits { RootHasSpelling root.now }
    requires generation { root.now.generation + 1 < 2 ^ 64 }
    requires few { libraries ≤ most_libraries }
    requires catalogues { length catalogues.now ≤ most_catalogues }
    requires gone { gone ≤ libraries }
    ensures { result ≡ next_root root.now libraries catalogues.now
        (map (closed_up gone) (listed_preloads root.now)) }
{
    let mut preloads = root.preloads;
    close_up(&mut preloads, gone as u16);
    Root::over_catalogues(
        root.generation + 1,
        root.sectors,
        libraries as u16,
        catalogues,
        &preloads[..usize::from(root.preload_count)],
    )
}

/// Returns the next root, which lists the same catalogues, and the preloads at `positions`.
pub(crate) fn with_preloads(root: &Root, positions: &[usize]) -> Root
    requires fits { RootHasSpelling root.now }
    requires generation { root.now.generation + 1 < 2 ^ 64 }
    requires few { length positions.now ≤ most_preloads }
    requires inside { All (λ position. position < root.now.library_count) positions.now }
    ensures { result ≡ next_root root.now root.now.library_count (catalogues_of root.now)
        positions.now }
{
    let mut preloads = [0; MOST_PRELOADS];
    for (place, position) in positions.iter().enumerate() {
        preloads[place] = *position as u16;
    }
    Root::over_catalogues(
        root.generation + 1,
        root.sectors,
        root.library_count,
        catalogues(root),
        &preloads[..positions.len()],
    )
}
