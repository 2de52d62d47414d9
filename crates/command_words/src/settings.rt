ghost use Rattle.std.specs.Prelude.{◌≡◌, ◌≤◌, ◌∷◌, List, IfSome, MatchOption, Some, None, length, map, string_bytes};
ghost use Rattle.std.specs.List.{position};
ghost use Rattle.std.specs.Option.{option_map};
ghost use Rattle.command_words.specs.meaning.Words.{Setting as SettingValue, after_dashes as text_behind_dashes, is_equals, setting_of_text, setting_of as setting_of, settings_of, value_named as value_given};

/// An option as it stands on the command line: a name, and the value that it is given.
#[derive(Clone, Copy)]
pub struct Setting<'a> {
    pub name: &'a [u8],
    pub value: &'a [u8],
}

/// The setting that a word begins, and the words after it: `--name=value`, or `--name` with the next word
/// as the value, whatever that begins with.
pub fn split_setting<'a>(
    word: &'a String,
    behind: &'a [String],
) -> Option<(Setting<'a>, &'a [String])>
    ensures parts { MatchOption result
        (settings_of (string_bytes word.now ∷ map string_bytes behind.now) ≡ None)
        (λ parts. settings_of (string_bytes word.now ∷ map string_bytes behind.now) ≡
        option_map (λ more. setting_of parts.0.name.now parts.0.value.now ∷ more)
        (settings_of (map string_bytes parts.1.now))) }
    ensures shorter { IfSome result (λ parts. length parts.1.now ≤ length behind.now) }
{
    let text = behind_dashes(word.as_bytes())?;
    if let Some(setting) = split_at_equals(text) {
        return Some((setting, behind));
    }
    match behind {
        [] => None,
        [value, later @ ..] => {
            let setting = Setting {
                name: text,
                value: value.as_bytes(),
            };
            Some((setting, later))
        }
    }
}

/// The value that the words first give to a name, where they are settings.
pub fn value_named<'a>(name: &[u8], words: &'a [String]) -> Option<&'a [u8]>
    ensures { (settings : List SettingValue) →
        settings_of (map string_bytes words.now) ≡ Some settings →
        option_map (λ value. value.now) result ≡ value_given name.now settings }
{
    let mut rest = words;
    while let [word, behind @ ..] = rest {
        let (setting, later) = split_setting(word, behind)?;
        if setting.name == name {
            return Some(setting.value);
        }
        rest = later;
    }
    None
}

/// What stands after `--`.
fn behind_dashes(word: &[u8]) -> Option<&[u8]>
    ensures { option_map (λ text. text.now) result ≡ text_behind_dashes word.now }
{
    match word {
        [b'-', b'-', text @ ..] => Some(text),
        _ => None,
    }
}

/// The name before the first `=`, and the value after it.
fn split_at_equals(text: &[u8]) -> Option<Setting<'_>>
    ensures { option_map (λ s. setting_of s.name.now s.value.now) result ≡ setting_of_text text.now }
{
    let equals = equals_place(text)?;
    Some(Setting {
        name: &text[..equals],
        value: &text[equals + 1..],
    })
}

fn equals_place(text: &[u8]) -> Option<usize>
    ensures { result ≡ position is_equals text.now }
{
    text.iter().position(|b| *b == b'=')
}
