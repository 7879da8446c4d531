// The lines that show the grammar.
ghost use Rattle.std.specs.Prelude.{◌≡◌};
ghost use Rattle.command_words.specs.Help.{help_text};

// A line for each command. That of `debug` stands here before the command is built.
const LINES: &str =
    "run IMAGE [--vlen N] [--steps N] [--agnostic keep|ones] [--state] [--counts] [--work]
check IMAGE
debug IMAGE [--input FILE] [--vlen N] [--agnostic keep|ones]
gen SEED SIZE
bench SEED SIZE
help
";

/// The commands with their operands and options, a line for each.
#[tactic(auto, unfolding(crate::specs::Help::help_text))]
pub fn help_lines() -> &'static str
    ensures { result.now ≡ help_text }
{
    LINES
}
