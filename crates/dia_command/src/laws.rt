//! Laws of commands, for callers' proofs. They do nothing when they run.

ghost use Rattle.dia_command.specs.Laws.{SameCommand, WrittenAgain};

/// Kind, header, fields and rest fix a command.
pub fn same_command()
    ensures { SameCommand }
{}

/// Fields that were read from AVPs are written as these AVPs, in their canonical encoding.
pub fn written_again()
    ensures { WrittenAgain }
{}
