//! What follows from the meaning of the words, for callers to cite.
//!
//! Each function does nothing: its clause is the law.
ghost use Rattle.command_line.specs.Asked.{SaturationKeepsRules};
ghost use Rattle.command_line.specs.Command.{WordsDetermineTheCommand};
ghost use Rattle.command_line.specs.Forms.{EachIsGivenOnce, PlainFormsAreCommands};

/// No words ask for two commands.
pub fn words_determine_the_command()
    ensures { WordsDetermineTheCommand }
{}

/// Each mode alone is a command, and so is a mode with an option and one of its values before or
/// after it. The option changes its own number, word or limit alone.
pub fn plain_forms_are_commands()
    ensures { PlainFormsAreCommands }
{}

/// Words without a mode, with two modes or with an option given twice are no command.
pub fn each_is_given_once()
    ensures { EachIsGivenOnce }
{}

/// The limits of a command break the same rule first as the numbers that the words ask for.
pub fn saturation_keeps_rules()
    ensures { SaturationKeepsRules }
{}
