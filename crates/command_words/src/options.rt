ghost use Rattle.std.specs.Prelude.{◌≡◌, ◌<◌, ◌^◌, [], List, MatchResult, Some, IfOk, IfSome, IsSome, OnErr, false, map, string_bytes};
ghost use Rattle.std.specs.List.{list_any};
ghost use Rattle.std.specs.Option.{option_map_or};
ghost use Rattle.std.specs.Str.{bytes_eq};
ghost use Rattle.command_words.specs.calls.Reading.{LacksOptions};
ghost use Rattle.command_words.specs.meaning.Ranges.{AreWithin};
ghost use Rattle.command_words.specs.meaning.Words.{setting_fits as fits_before, has_option as has_option, is_in_order, is_number_within, is_schedule as may_be_schedule, making_options, mining_options, number_named as number_given, number_or as number_given_or, options_of_words, range_of as range_given, settings_of, Setting as SettingValue, setting_of as setting_of, takes_value as takes_value, value_named as value_given, window_options, digits_or as digits_given_or};

use crate::command::{Options, Verb, WordsFault};
use crate::settings::{Setting, split_setting, value_named};
use graph_types::{List, NoMemory};
use line_fields::read_number;
use std::alloc::Global;

/// The most digits of a number.
const DIGITS: usize = 10;

/// The most digits of a schedule.
const SCHEDULE_DIGITS: usize = 4_096;

/// The largest number that an option may have.
const MOST_NUMBER: u64 = 4_294_967_295;

/// The options that the words after a command give. Only the digits of a schedule take memory.
pub fn read_options(alloc: Global, verb: Verb, words: &[String]) -> Result<Options, WordsFault>
    ensures read { MatchResult result
        (λ options. options_of_words verb (map string_bytes words.now) ≡ Some options)
        (LacksOptions verb (options_of_words verb (map string_bytes words.now))) }
    ensures within { IfOk result (λ options. AreWithin options) }
{
    if !are_in_order(verb, words) {
        return Err(WordsFault::Usage);
    }
    let workers = number_or(b"workers", 2, words);
    let shards = number_or(b"shards", 8, words);
    let window = number_or(b"window", 256, words);
    let max_records = number_or(b"max-records", 100_000, words);
    let max_lines = number_or(b"max-lines", 4_000_000_000, words);
    let records = number_or(b"records", 2, words);
    let at = number_named(b"at", words);
    let seed = number_or(b"seed", 1, words);
    let vertices = number_or(b"vertices", 200, words);
    let updates = number_or(b"updates", 2_000, words);
    let schedule = digits_named(alloc, b"schedule", words)?;
    Ok(Options {
        workers,
        shards,
        window,
        max_records,
        max_lines,
        records,
        at,
        seed,
        vertices,
        updates,
        schedule,
    })
}

/// Whether the words are options that the command has, each at most once and with a value that it takes.
fn are_in_order(verb: Verb, words: &[String]) -> bool
    ensures { result ≡ option_map_or (is_in_order verb) (settings_of (map string_bytes words.now)) false }
{
    let mut rest = words;
    while let [word, behind @ ..] = rest {
        let Some((setting, later)) = split_setting(word, behind) else {
            return false;
        };
        if !fits(verb, setting, later) {
            return false;
        }
        rest = later;
    }
    true
}

/// Whether the command has the option, which takes the value, and its name doesn't stand again.
fn fits(verb: Verb, setting: Setting<'_>, later: &[String]) -> bool
    ensures { (settings : List SettingValue) →
        settings_of (map string_bytes later.now) ≡ Some settings →
        result ≡ fits_before verb (setting_of setting.entry.name.now setting.entry.value.now) settings }
{
    let Setting { name, value } = setting;
    has(verb, name) && takes(name, value) && value_named(name, later).is_none()
}

/// Whether the command has an option of this name.
fn has(verb: Verb, name: &[u8]) -> bool
    ensures { result ≡ has_option verb name.now }
{
    match verb {
        Verb::Mine => name == b"records".as_slice() || has_to_mine(name),
        Verb::Fold => name == b"at".as_slice(),
        Verb::Migrate => false,
        Verb::Rehearse => {
            name == b"schedule".as_slice() || name == b"records".as_slice() || has_for_windows(name)
        }
        Verb::Trial => has_to_make(name) || has_to_mine(name),
    }
}

/// Whether the command that makes a job has an option of this name for it.
fn has_to_make(name: &[u8]) -> bool
    ensures { result ≡ list_any (bytes_eq name.now) making_options }
{
    name == b"seed".as_slice() || name == b"vertices".as_slice() || name == b"updates".as_slice()
}

/// Whether the commands that mine a job on several threads have an option of this name.
fn has_to_mine(name: &[u8]) -> bool
    ensures { result ≡ list_any (bytes_eq name.now) mining_options }
{
    name == b"workers".as_slice() || has_for_windows(name)
}

/// Whether the commands that mine a job in windows have an option of this name.
fn has_for_windows(name: &[u8]) -> bool
    ensures { result ≡ list_any (bytes_eq name.now) window_options }
{
    name == b"shards".as_slice()
        || name == b"window".as_slice()
        || name == b"max-records".as_slice()
        || name == b"max-lines".as_slice()
}

/// Whether the option of this name takes this value.
fn takes(name: &[u8], value: &[u8]) -> bool
    ensures { result ≡ takes_value name.now value.now }
{
    if name == b"schedule".as_slice() {
        return is_schedule(value);
    }
    let Some((least, most)) = range_of(name) else {
        return false;
    };
    is_within(value, least, most)
}

/// Whether the value is digits, at most as many as a schedule may have.
fn is_schedule(value: &[u8]) -> bool
    ensures { result ≡ may_be_schedule value.now }
{
    value.len() <= SCHEDULE_DIGITS && value.iter().all(|b| b.is_ascii_digit())
}

/// The least and the most that the option of this name takes, where it takes a number.
fn range_of(name: &[u8]) -> Option<(u64, u64)>
    ensures { result ≡ range_given name.now }
{
    if name == b"workers".as_slice() {
        Some((1, 16))
    } else if name == b"shards".as_slice() {
        Some((1, 64))
    } else if name == b"window".as_slice() {
        Some((1, 4_096))
    } else if name == b"max-records".as_slice() {
        Some((1, 10_000_000))
    } else if name == b"max-lines".as_slice() {
        Some((1, 4_000_000_000))
    } else if name == b"records".as_slice() {
        Some((1, 2))
    } else if name == b"at".as_slice() {
        Some((0, 4_000_000_000))
    } else if name == b"seed".as_slice() {
        Some((0, 2_147_483_647))
    } else if name == b"vertices".as_slice() {
        Some((2, 10_000))
    } else if name == b"updates".as_slice() {
        Some((0, 1_000_000))
    } else {
        None
    }
}

fn is_within(value: &[u8], least: u64, most: u64) -> bool
    ensures { result ≡ is_number_within least most value.now }
{
    match read_number(value, DIGITS) {
        Some(number) => least <= number && number <= most,
        None => false,
    }
}

/// The number that the words give to a name, where they are settings and it fits 32 bits.
fn number_named(name: &[u8], words: &[String]) -> Option<u32>
    ensures { (settings : List SettingValue) → settings_of (map string_bytes words.now) ≡ Some settings →
        IfSome (number_given name.now settings) (λ n. n < 2 ^ 32) → result ≡ number_given name.now settings }
{
    let number = read_number(value_named(name, words)?, DIGITS)?;
    if number > MOST_NUMBER {
        return None;
    }
    Some(number as u32)
}

/// That number, or else the one that stands where the name doesn't.
fn number_or(name: &[u8], usual: u32, words: &[String]) -> u32
    ensures { (settings : List SettingValue) → settings_of (map string_bytes words.now) ≡ Some settings →
        IfSome (number_given name.now settings) (λ n. n < 2 ^ 32) → result ≡ number_given_or usual name.now settings }
{
    number_named(name, words).unwrap_or(usual)
}

/// The digits that the words give to a name, where they are settings, or else none.
fn digits_named(alloc: Global, name: &[u8], words: &[String]) -> Result<List<u8>, NoMemory>
    ensures ok { (settings : List SettingValue) → settings_of (map string_bytes words.now) ≡ Some settings →
        IfOk result (λ digits. digits ≡ digits_given_or [] name.now settings) }
    ensures err { (settings : List SettingValue) → settings_of (map string_bytes words.now) ≡ Some settings →
        OnErr result (IsSome (value_given name.now settings)) }
{
    match value_named(name, words) {
        Some(digits) => Ok(List::from_slice(alloc, digits)?),
        None => Ok(List::new(alloc)),
    }
}
