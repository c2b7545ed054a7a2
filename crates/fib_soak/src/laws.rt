// Laws of the definitions, each the contract of a call without a body.
ghost use Rattle.std.specs.Prelude.{◌≡◌, ℕ, length};
ghost use Rattle.fib_soak.specs.Kinds.{LinesAreChanges};
ghost use Rattle.fib_soak.specs.Flows.{soak_flows};
ghost use Rattle.fib_base_lines.specs.Lines.{lines_of};
ghost use Rattle.fib_soak.specs.Scripts.{soak_lines, soak_script};

/// Every script has 2,988 lines.
pub fn script_has_2988_lines()
    ensures { (seed : ℕ) → length (soak_lines seed) ≡ 2988 }
{}

/// The lines of a script's text are those that it was made of.
pub fn script_is_read_back()
    ensures { (seed : ℕ) → lines_of (soak_script seed) ≡ soak_lines seed }
{}

/// Each line of a script is a change of the tables or no line of the grammar, or it asks for 500 packets.
pub fn lines_are_changes()
    ensures { LinesAreChanges }
{}

/// Every seed has 40,000 flows.
pub fn there_are_40000_flows()
    ensures { (seed : ℕ) → length (soak_flows seed) ≡ 40000 }
{}
