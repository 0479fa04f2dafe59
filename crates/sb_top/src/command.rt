//! The words of a command line: `check FILE...` is the one command.
ghost use Rattle.std.specs.Prelude.{◌≡◌, ◌≤◌, IfSome, length, map, string_bytes};
ghost use Rattle.std.specs.List.{list_all};
ghost use Rattle.std.specs.Option.{option_copied, option_map};
ghost use Rattle.sb_top.specs.Words.{is_file_name, are_file_names, files_of_words};

/// The most files that a set may have.
const MOST_FILES: usize = 256;

/// Whether a word may name a file: it is not empty and does not begin with `-`.
fn is_file_name(word: &[u8]) -> bool
    ensures { result ≡ is_file_name word.now }
{
    match word.first() {
        Some(byte) => *byte != b'-',
        None => false,
    }
}

fn name_files(words: &[String]) -> bool
    ensures { result ≡ list_all (λ word. is_file_name (string_bytes word)) words.now }
{
    words.iter().all(|word| is_file_name(word.as_bytes()))
}

fn are_file_names(words: &[String]) -> bool
    ensures { result ≡ are_file_names (map string_bytes words.now) }
{
    !words.is_empty() && words.len() <= MOST_FILES && name_files(words)
}

/// The files that the words ask for, or None where they are no command.
pub(crate) fn files_of_words(words: &[String]) -> Option<&[String]>
    ensures files { option_map (map string_bytes) (option_copied result)
        ≡ files_of_words (map string_bytes words.now) }
    ensures count { IfSome result (λ files. length files.now ≤ 256) }
{
    let (command, files) = words.split_first()?;
    if command.as_str() == "check" && are_file_names(files) {
        Some(files)
    } else {
        None
    }
}
