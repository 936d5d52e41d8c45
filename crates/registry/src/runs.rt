// The laws of runs.
ghost use Rattle.std.specs.Prelude.{List, ◌++◌};
ghost use Rattle.requests.specs.Runs.{last_of};
ghost use Rattle.registry.specs.Acknowledged.{Exchange};
ghost use Rattle.registry.specs.Opened.{IsAt};
ghost use Rattle.registry.specs.Ran.{LeadsThrough, Point, Ran};

use sector_disk::Disk;

/// Does nothing. Its clauses are the laws of runs, for disks of type `D`. The steps of a run are
/// clauses of `Registry::apply`, `Update::commit` and `Update::give_up`.
pub fn runs_join<D: Disk>()
    // Commands, updates and other requests that are made one after the other to a registry at a
    // state form a run, even if calls of the disk failed.
    ensures ran { (start : Point D) (exchanges : List Exchange) (points : List (Point D))
        → IsAt D.facts start.registry start.state
        → LeadsThrough D.facts start exchanges points
        → Ran D.facts start exchanges points (last_of start points) }

    // If a second run begins where the first one ended, both together form one run.
    ensures joined { (start mid end : Point D) (first second : List Exchange)
        (points later : List (Point D)) → IsAt D.facts start.registry start.state
        → Ran D.facts start first points mid → Ran D.facts mid second later end
        → Ran D.facts start (first ++ second) (points ++ later) end }
{}
