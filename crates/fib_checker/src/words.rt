// The words of the command line.
ghost use Rattle.std.specs.Prelude.{◌≡◌, map, option_map, string_bytes};
ghost use Rattle.fib_checker.specs.Words.{file_named, starts_with_hyphen};

fn is_option(word: &str) -> bool
    ensures { result ≡ starts_with_hyphen word.now }
{
    match word.as_bytes() {
        [first, ..] => *first == b'-',
        [] => false,
    }
}

/// The name of the command file. None exactly where the words aren't one that begins with no hyphen: there are no options, and a lone hyphen
/// names no file.
pub fn file_named<'a>(words: &'a [String]) -> Option<&'a str>
    ensures { option_map (λ s. s.now) result ≡ file_named (map string_bytes words.entry.now) }
{
    let [word] = words else {
        return None;
    };
    let name = word.as_str();
    if is_option(name) { None } else { Some(name) }
}
