//! The command line of a program that reads its commands from standard input.
ghost use Rattle.std.specs.Prelude.{◌≡◌, Some, map};
ghost use Rattle.std.specs.Result.{result_map_both};
ghost use Rattle.commands.specs.Arguments.{is_help, help_asked, unknown_argument};

use std::fmt;

/// An argument that such a program does not know.
#[derive(Clone, Copy)]
pub struct UnknownArgument<'a>(pub &'a str);

impl fmt::Display for UnknownArgument<'_> {
    ghost output = { λ unknown. Some (unknown_argument unknown.0.now) };

    fn fmt<W: fmt::Write>(&self, f: &mut fmt::Formatter<W>) -> fmt::Result {
        let argument = self.0;
        write!(f, "unknown argument {argument}, try --help")
    }
}

/// Whether the arguments, `--help` or `-h` each, ask for help. The first that is neither is the error.
pub fn asks_for_help<'a>(arguments: &[&'a str]) -> Result<bool, UnknownArgument<'a>>
    ensures { result_map_both (λ asked. asked) (λ unknown. unknown.0.now) result ≡ help_asked (map (λ argument. argument.now) arguments.now) }
{
    let mut asked = false;
    for argument in arguments {
        if !is_help(argument) {
            return Err(UnknownArgument(argument));
        }
        asked = true;
    }
    Ok(asked)
}

/// Whether an argument asks for help.
fn is_help(argument: &str) -> bool
    ensures { result ≡ is_help argument.now }
{
    argument == "--help" || argument == "-h"
}
