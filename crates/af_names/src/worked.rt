//! Worked values: what the definitions give at single texts and numbers, computed by the checker.
ghost use Rattle.std.specs.Prelude.{◌≡◌, [], codes, replicate, Err, Ok, Some, true, false, IsTrue};
ghost use Rattle.af_names.specs.Names.{account_name_grammar, id_grammar, row_name_grammar, named, run_id_grammar};
ghost use Rattle.af_names.specs.Instants.{instant_of};
ghost use Rattle.af_names.specs.Isoformat.{isoformat};
ghost use Rattle.af_names.specs.Points.{is_point};
ghost use Rattle.af_names.specs.Presets.{preset_of};
ghost use Rattle.af_names.specs.declared.instant_error.InstantError.TheVariants.{BadInstant, OutOfRange};
ghost use Rattle.af_names.specs.declared.name_error.NameError.TheVariants.{BadName, TooLong};
ghost use Rattle.af_names.specs.declared.preset.Preset.TheVariants.{Hourly, Daily, Weekly, Monthly};

/// Ids of DAGs, of tasks and of runs.
pub fn ids_by_the_rule()
    ensures empty { named id_grammar [] ≡ Err BadName }
    ensures space { named id_grammar (codes "a b") ≡ Err BadName }
    ensures longest { named id_grammar (replicate 250 97) ≡ Ok (replicate 250 97) }
    ensures too_long { named id_grammar (replicate 251 97) ≡ Err TooLong }
    ensures each { named run_id_grammar (codes "~") ≡ Err BadName }
    ensures run { named run_id_grammar (codes "manual__2024-01-01T00:00:00+00:00") ≡ Ok (codes "manual__2024-01-01T00:00:00+00:00") }
{}

/// Names of accounts, and keys.
pub fn names_by_the_rule()
    ensures space { named account_name_grammar (codes "Public role") ≡ Ok (codes "Public role") }
    ensures longest { named account_name_grammar (replicate 64 126) ≡ Ok (replicate 64 126) }
    ensures too_long { named account_name_grammar (replicate 65 126) ≡ Err TooLong }
    ensures first_fault { named account_name_grammar (replicate 65 127) ≡ Err BadName }
    ensures key { named row_name_grammar (replicate 250 32) ≡ Ok (replicate 250 32) }
{}

/// Texts of instants, read and written.
pub fn instants_by_the_rule()
    ensures cut { instant_of (codes "2024-01-01T00:00:00.0000019Z") ≡ Ok 1_704_067_200_000_001 }
    ensures before { instant_of (codes "1969-12-31T23:59:59.9999999Z") ≡ Err OutOfRange }
    ensures last { instant_of (codes "9998-12-31T23:59:59.9999999Z") ≡ Ok 253_370_764_799_999_999 }
    ensures month { instant_of (codes "2024-13-01T00:00:00Z") ≡ Err BadInstant }
    ensures fraction { isoformat 1_704_067_200_000_001 ≡ codes "2024-01-01T00:00:00.000001+00:00" }
    ensures whole { isoformat 951_782_400_000_000 ≡ codes "2000-02-29T00:00:00+00:00" }
{}

/// Points of the schedules: 1970-01-04 was a Sunday, and 1970-03-01 was day 59.
pub fn points_by_the_rule()
    ensures hour { is_point Hourly 7_200_000_000 ≡ true }
    ensures sunday { is_point Weekly 259_200_000_000 ≡ true }
    ensures monday { is_point Weekly 345_600_000_000 ≡ false }
    ensures month { is_point Monthly 5_097_600_000_000 ≡ true }
    ensures second_day { is_point Monthly 5_184_000_000_000 ≡ false }
    ensures text { preset_of (codes "@weekly") ≡ Some Weekly }
{}
