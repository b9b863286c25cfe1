//! Worked values: what the definitions give for single queries and lists, computed by the checker.
ghost use Rattle.std.specs.Prelude.{◌≡◌, ◌||◌, [], ◌∷◌, codes, nat_eq, Err, None, Ok, Some, false, true};
ghost use Rattle.std.specs.Cmp.Lexicographic.{pointwise};
ghost use Rattle.af_policy.specs.declared.bad_input.Parameter.TheVariants.{Limit, Offset};
ghost use Rattle.af_listing.specs.Pages.{page_of, shows, shows_row};
ghost use Rattle.af_listing.specs.Windows.{last_number, window_of};

/// Queries that are read.
pub fn queries_by_the_rule()
    ensures absent { window_of [] ≡ Ok (record { limit = 100; offset = 0 }) }
    ensures both { window_of (codes "limit=2&offset=1") ≡ Ok (record { limit = 2; offset = 1 }) }
    ensures other_order { window_of (codes "offset=1&limit=2") ≡ Ok (record { limit = 2; offset = 1 }) }
    ensures large { window_of (codes "limit=1000") ≡ Ok (record { limit = 100; offset = 0 }) }
    ensures nothing { window_of (codes "limit=0") ≡ Ok (record { limit = 0; offset = 0 }) }
    ensures leading_zeros { window_of (codes "limit=007") ≡ Ok (record { limit = 7; offset = 0 }) }
    ensures thirty_digits { window_of (codes "limit=999999999999999999999999999999&offset=999999999999999999999999999999") ≡ Ok (record { limit = 100; offset = last_number }) }
    ensures first_counts { window_of (codes "limit=3&limit=x&offset=4&offset=5") ≡ Ok (record { limit = 3; offset = 4 }) }
    ensures encoded_name { window_of (codes "%6cimit=7") ≡ Ok (record { limit = 7; offset = 0 }) }
    ensures encoded_value { window_of (codes "limit=%37") ≡ Ok (record { limit = 7; offset = 0 }) }
    ensures other_case { window_of (codes "LIMIT=7&Offset=x") ≡ Ok (record { limit = 100; offset = 0 }) }
    ensures others { window_of (codes "order_by=dag_id&tags=a&&limits=x") ≡ Ok (record { limit = 100; offset = 0 }) }
{}

/// Queries with a faulty parameter.
pub fn faults_by_the_rule()
    ensures negative { window_of (codes "limit=-1") ≡ Err Limit }
    ensures bare { window_of (codes "limit") ≡ Err Limit }
    ensures empty { window_of (codes "limit=") ≡ Err Limit }
    ensures limit_first { window_of (codes "offset=x&limit=x") ≡ Err Limit }
    ensures first_decides { window_of (codes "limit=x&limit=3") ≡ Err Limit }
    ensures fraction { window_of (codes "limit=1.0") ≡ Err Limit }
    ensures sign { window_of (codes "offset=%2B1") ≡ Err Offset }
    ensures plus { window_of (codes "offset=+1") ≡ Err Offset }
    ensures space { window_of (codes "offset=1%20") ≡ Err Offset }
    ensures no_utf8 { window_of (codes "offset=%FF") ≡ Err Offset }
    ensures second_equals { window_of (codes "offset=1=") ≡ Err Offset }
{}

/// Which rows are shown to who reads the DAGs a and b, and the runs of b and c: a row of a run where both answer true, any other by its DAG
/// alone.
pub fn rows_by_the_rule()
    ensures dag { shows_row (record { dags = λ dag. pointwise nat_eq (codes "a") dag || pointwise nat_eq (codes "b") dag; runs = λ dag. pointwise nat_eq (codes "b") dag || pointwise nat_eq (codes "c") dag }) (λ row. row) (λ row. false) (Some (codes "a")) ≡ true }
    ensures run { shows_row (record { dags = λ dag. pointwise nat_eq (codes "a") dag || pointwise nat_eq (codes "b") dag; runs = λ dag. pointwise nat_eq (codes "b") dag || pointwise nat_eq (codes "c") dag }) (λ row. row) (λ row. true) (Some (codes "b")) ≡ true }
    ensures runs_are_not_read { shows_row (record { dags = λ dag. pointwise nat_eq (codes "a") dag || pointwise nat_eq (codes "b") dag; runs = λ dag. pointwise nat_eq (codes "b") dag || pointwise nat_eq (codes "c") dag }) (λ row. row) (λ row. true) (Some (codes "a")) ≡ false }
    ensures dag_is_not_read { shows_row (record { dags = λ dag. pointwise nat_eq (codes "a") dag || pointwise nat_eq (codes "b") dag; runs = λ dag. pointwise nat_eq (codes "b") dag || pointwise nat_eq (codes "c") dag }) (λ row. row) (λ row. true) (Some (codes "c")) ≡ false }
    ensures no_dag { shows_row (record { dags = λ dag. false; runs = λ dag. false }) (λ row. row) (λ row. true) None ≡ true }
{}

/// Runs of the DAGs a, b, b, a and b, as who reads b alone is shown them; and a list with a row that names no DAG.
pub fn pages_by_the_rule()
    ensures second_on { page_of (shows (pointwise nat_eq (codes "b")) (λ row. row)) (record { limit = 2; offset = 1 }) (Some (codes "a") ∷ Some (codes "b") ∷ Some (codes "b") ∷ Some (codes "a") ∷ Some (codes "b") ∷ []) ≡ record { places = 2 ∷ 4 ∷ []; total = 3 } }
    ensures past_the_end { page_of (shows (pointwise nat_eq (codes "b")) (λ row. row)) (record { limit = 100; offset = 9 }) (Some (codes "a") ∷ Some (codes "b") ∷ Some (codes "b") ∷ Some (codes "a") ∷ Some (codes "b") ∷ []) ≡ record { places = []; total = 3 } }
    ensures none_asked { page_of (shows (pointwise nat_eq (codes "b")) (λ row. row)) (record { limit = 0; offset = 0 }) (Some (codes "a") ∷ Some (codes "b") ∷ Some (codes "b") ∷ Some (codes "a") ∷ Some (codes "b") ∷ []) ≡ record { places = []; total = 3 } }
    ensures all { page_of (shows (pointwise nat_eq (codes "b")) (λ row. row)) (record { limit = 100; offset = 0 }) (Some (codes "a") ∷ Some (codes "b") ∷ Some (codes "b") ∷ Some (codes "a") ∷ Some (codes "b") ∷ []) ≡ record { places = 1 ∷ 2 ∷ 4 ∷ []; total = 3 } }
    ensures first { page_of (shows (pointwise nat_eq (codes "b")) (λ row. row)) (record { limit = 1; offset = 0 }) (Some (codes "a") ∷ Some (codes "b") ∷ Some (codes "b") ∷ Some (codes "a") ∷ Some (codes "b") ∷ []) ≡ record { places = 1 ∷ []; total = 3 } }
    ensures last { page_of (shows (pointwise nat_eq (codes "b")) (λ row. row)) (record { limit = 1; offset = 2 }) (Some (codes "a") ∷ Some (codes "b") ∷ Some (codes "b") ∷ Some (codes "a") ∷ Some (codes "b") ∷ []) ≡ record { places = 4 ∷ []; total = 3 } }
    ensures without_a_dag { page_of (shows (pointwise nat_eq (codes "b")) (λ row. row)) (record { limit = 100; offset = 0 }) (Some (codes "a") ∷ None ∷ Some (codes "b") ∷ []) ≡ record { places = 1 ∷ 2 ∷ []; total = 2 } }
{}
