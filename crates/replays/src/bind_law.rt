// The law that a bind of an update has the same answer as a bind after the update's commit.

ghost use Rattle.std.specs.Prelude.{◌≡◌, ℕ, List};
ghost use Rattle.states.specs.State.{State};
ghost use Rattle.requests.specs.Binding.{binding_refusal, bound_objects};
ghost use Rattle.requests.specs.Request.{Request};
ghost use Rattle.registry.specs.Updating.{drafted_by, updated};

/// Does nothing. Its clauses state the law that a bind with the draft of an update has the same
/// answer as a bind after the commit.
pub fn planned_binds()
    // After the commit, the bind is refused if and only if it was refused before, and for the same
    // reason.
    ensures refusal { (s : State) (requests : List Request) (program : List ℕ) (base : ℕ)
        → binding_refusal (updated s requests) program base
        ≡ binding_refusal (drafted_by s requests) program base }

    // Both binds bind the same objects at the same places, so they return the same image.
    ensures objects { (s : State) (requests : List Request) (program : List ℕ) (base : ℕ)
        → bound_objects (updated s requests) program base
        ≡ bound_objects (drafted_by s requests) program base }
{}
