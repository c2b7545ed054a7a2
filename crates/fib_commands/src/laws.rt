// Laws of the grammar, each the contract of a call without a body.
ghost use Rattle.std.specs.Prelude.{◌≡◌, ◌≤◌, Some, length};
ghost use Rattle.fib_resolve.specs.declared.types.Edit.{Edit};
ghost use Rattle.fib_commands.specs.declared.types.Line.TheVariants as said;
ghost use Rattle.fib_commands.specs.Names.{Words};
ghost use Rattle.fib_commands.specs.Lines.{forms, line_of, readings};
ghost use Rattle.fib_commands.specs.Canonical.{IsCanonical, edit_text};

/// No two forms give a line of the same words: a line has at most one reading.
pub fn a_line_has_one_reading()
    ensures { (words : Words) → length (readings forms words) ≤ 1 }
{}

/// The canonical text of an edit, with its words joined by one space and each path's weight and preference written, is read back to
/// that edit.
pub fn canonical_lines_are_read_back()
    ensures { (edit : Edit) → IsCanonical edit → line_of (edit_text edit) ≡ Some (said.Change edit) }
{}
