// Worked examples that are shown to hold of the definitions, all by one computed check.
#![tactic(auto)]

ghost use Rattle.std.specs.Prelude.{◌≡◌, true};
ghost use Rattle.rows.specs.Rows.{rows};

// Every worked example holds.
pub fn rows_hold() -> bool
    ensures { (result ≡ rows) × (rows ≡ true) }
{
    true
}
