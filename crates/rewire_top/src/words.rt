// The words of a command, read by hand and compared as a whole list. There are no options.
ghost use Rattle.std.specs.Prelude.{◌≡◌, map, string_bytes};
ghost use Rattle.rewire_top.specs.Asked.{asked_of};
ghost use Rattle.rewire_top.specs.Commands.{command_of};

// What the words ask for.
pub enum Asked<'a> {
    // `check FILE`
    Check(&'a str),
    // `compile FILE OUT`
    Compile(&'a str, &'a str),
    // `sim VHDL TRACE`
    Sim(&'a str, &'a str),
    // They are no command.
    Nothing,
}

// The command that the words are, as a whole list.
pub fn read_words<'a>(words: &'a [String]) -> Asked<'a>
    ensures { asked_of result ≡ command_of (map string_bytes words.now) }
{
    match words {
        [word, file] if word.as_str() == "check" => Asked::Check(file.as_str()),
        [word, file, target] if word.as_str() == "compile" => {
            Asked::Compile(file.as_str(), target.as_str())
        }
        [word, vhdl, trace] if word.as_str() == "sim" => Asked::Sim(vhdl.as_str(), trace.as_str()),
        _ => Asked::Nothing,
    }
}
