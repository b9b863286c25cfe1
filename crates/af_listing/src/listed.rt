ghost use Rattle.std.specs.Prelude.{◌≡◌, Bool, List, Option, false, ℕ};
ghost use Rattle.std.specs.Option.{option_copied};

use af_names::{DagId, NamesDag};

/// A row of a listing, which may name a DAG, as a run does, or none, as a pool does.
pub trait Listed {
    /// The id of the DAG that the row names, if it names one.
    ghost named: { Self → Option (List ℕ) };

    /// Whether the row is that of a run, or of an instance.
    ghost of_run: { Self → Bool };

    /// The id of the DAG that the row names, if it names one.
    fn dag(&self) -> Option<&DagId>
        ensures { option_copied result ≡ named self.now };

    /// Whether the row is that of a run, or of an instance. It is shown where the runs of its DAG may be read too.
    fn of_run(&self) -> bool
        ensures { result ≡ of_run self.now };

    /// Whether there are such rows. Where there are none, a reader of all DAGs is shown each row.
    fn has_runs() -> bool
        ensures { result ≡ false → (row : Self) → of_run row ≡ false };
}

/// A row that names its DAG alone is not that of a run: a run's row has an impl of its own.
impl<T: NamesDag> Listed for T {
    ghost use Rattle.std.specs.Prelude.{Some, false};

    ghost named = { λ row. Some (T.dag row) };

    ghost of_run = { λ row. false };

    fn dag(&self) -> Option<&DagId> {
        Some(self.dag_id())
    }

    fn of_run(&self) -> bool {
        false
    }

    fn has_runs() -> bool {
        false
    }
}
