//! The entries of a table, by their keys.
ghost use Rattle.std.specs.Prelude.{◌≡◌, ◌≤◌, ◌<◌, [], vec_len, IfOk, IfErr, IfSome, IfNone, OnOk, None, Some, map, option_map, option_and_then, length};
ghost use Rattle.std.specs.List.{list_all};
ghost use Rattle.toml.specs.View.{view, array_view, table_view};
ghost use Rattle.settings_file.specs.Fault.{Gives, fault_of, unknown};
ghost use Rattle.settings_file.specs.Entry.{value_at, number_in, optional_number, number, takes, is_finishing, text, item_texts, item_tables, is_among, new_texts, most_entries, list_in, optional_list, list, tables, is_one_of, other_key};

use crate::fault::SettingsFault;
use crate::key::Key;
use base_types::{Limits, Text, is_format, is_media, is_name, is_uri_base};
use std::alloc::{AllocError, Global};
use toml::value::Array;
use toml::{Table, Value};

// The value at a key.
fn value_at<'a>(table: &'a Table, key: Key) -> Option<&'a Value>
    ensures { option_map (λ v. view v.now) result ≡ value_at key (table_view table.now) }
{
    table.get(key.name())
}

// A whole number in a range.
fn number_in(key: Key, low: u32, high: u32, value: Option<i64>) -> Result<u32, SettingsFault>
    ensures exact { Gives (λ n. n) result (number_in key low high value) }
    ensures above { IfOk result (λ n. low ≤ n) }
    ensures below { IfOk result (λ n. n ≤ high) }
{
    let Some(value) = value else {
        return Err(SettingsFault::WrongKind(key));
    };
    match u64::try_from(value) {
        Ok(value) if u64::from(low) <= value && value <= u64::from(high) => Ok(value as u32),
        _ => Err(SettingsFault::OutOfRange(key)),
    }
}

/// Reads the whole number of a key that may be missing.
pub(crate) fn optional_number(
    table: &Table,
    key: Key,
    low: u32,
    high: u32,
) -> Result<Option<u32>, SettingsFault>
    ensures exact { Gives (λ n. n) result (optional_number key low high (table_view table.now)) }
    ensures above { IfOk result (λ o. IfSome o (λ n. low ≤ n)) }
    ensures below { IfOk result (λ o. IfSome o (λ n. n ≤ high)) }
{
    match value_at(table, key) {
        None => Ok(None),
        Some(value) => {
            let number = number_in(key, low, high, value.as_integer())?;
            Ok(Some(number))
        }
    }
}

/// Reads the whole number of a key that must be there.
pub(crate) fn number(table: &Table, key: Key, low: u32, high: u32) -> Result<u32, SettingsFault>
    ensures exact { Gives (λ n. n) result (number key low high (table_view table.now)) }
    ensures above { IfOk result (λ n. low ≤ n) }
    ensures below { IfOk result (λ n. n ≤ high) }
{
    let number = optional_number(table, key, low, high)?;
    number.ok_or(SettingsFault::Missing(key))
}

// Returns whether a text names a finishing.
fn is_finishing(text: &[u8]) -> bool
    ensures { result ≡ is_finishing text.now }
{
    text == b"staple".as_slice() || text == b"punch".as_slice() || text == b"bind".as_slice()
}

// Returns whether the key takes the text.
fn takes(key: Key, text: &[u8]) -> bool
    ensures { result ≡ takes key text.now }
{
    match key {
        Key::UriBase => is_uri_base(text),
        Key::Name => is_name(text),
        Key::Media | Key::MediaDefault => is_media(text),
        Key::Formats | Key::FormatDefault => is_format(text),
        Key::Finishings => is_finishing(text),
        _ => true,
    }
}

/// Reads the text of a key that must be there.
pub(crate) fn text(alloc: Global, table: &Table, key: Key) -> Result<Text, SettingsFault>
    ensures { Gives (λ t. t) result (text key (table_view table.now)) }
{
    let Some(value) = value_at(table, key) else {
        return Err(SettingsFault::Missing(key));
    };
    let Some(text) = value.as_str() else {
        return Err(SettingsFault::WrongKind(key));
    };
    if !takes(key, text.as_bytes()) {
        return Err(SettingsFault::OutOfRange(key));
    }
    let text = Text::copy_of(alloc, text.as_bytes())?;
    Ok(text)
}

// The texts of an array, if it has only texts.
fn item_texts<'a>(alloc: Global, array: &'a Array) -> Result<Option<Vec<&'a str>>, AllocError>
    ensures { IfOk result (λ r. option_map (λ v. map (λ t. t.now) v.items) r ≡ item_texts (array_view array.now)) }
{
    let mut texts = Vec::new(alloc);
    for value in array {
        match value.as_str() {
            Some(text) => texts.push(text)?,
            None => return Ok(None),
        }
    }
    Ok(Some(texts))
}

// The tables of an array, if it has only tables.
fn item_tables<'a>(alloc: Global, array: &'a Array) -> Result<Option<Vec<&'a Table>>, AllocError>
    ensures { IfOk result (λ r. option_map (λ v. map (λ t. table_view t.now) v.items) r ≡ item_tables (array_view array.now)) }
{
    let mut tables = Vec::new(alloc);
    for value in array {
        match value.as_table() {
            Some(table) => tables.push(table)?,
            None => return Ok(None),
        }
    }
    Ok(Some(tables))
}

/// Returns whether a text is among those found.
#[tactic(auto, unfolding(crate::specs::Entry::is_among))]
pub(crate) fn is_among(found: &[Text], text: &[u8]) -> bool
    ensures { result ≡ is_among found.now text.now }
{
    found.iter().any(|entry| entry.as_bytes() == text)
}

// Returns whether the key takes each of the texts.
fn takes_all(key: Key, texts: &[Text]) -> bool
    ensures { result ≡ list_all (takes key) texts.now }
{
    texts.iter().all(|text| takes(key, text.as_bytes()))
}

// The most entries of a list.
fn most_entries(key: Key) -> usize
    ensures { result ≡ most_entries key }
{
    match key {
        Key::Devices => Limits::DEVICES,
        _ => Limits::LIST_ENTRIES,
    }
}

// Each of the texts once, if they are at most `most`.
fn new_texts(alloc: Global, most: usize, texts: &[&str]) -> Result<Option<Vec<Text>>, AllocError>
    ensures each_once { IfOk result (λ r. IfSome r (λ v. v.items ≡ new_texts [] (map (λ t. t.now) texts.now))) }
    ensures few { IfOk result (λ r. IfSome r (λ v. vec_len v ≤ most)) }
    ensures many { IfOk result (λ r. IfNone r (most < length (new_texts [] (map (λ t. t.now) texts.now)))) }
{
    let mut found: Vec<Text> = Vec::new(alloc);
    for text in texts {
        if !is_among(&found, text.as_bytes()) {
            if found.len() == most {
                return Ok(None);
            }
            let entry = Text::copy_of(alloc, text.as_bytes())?;
            found.push(entry)?;
        }
    }
    Ok(Some(found))
}

// A list of texts that the key takes, each once.
fn list_in(alloc: Global, key: Key, array: Option<&Array>) -> Result<Vec<Text>, SettingsFault>
    ensures { Gives (λ v. v.items) result (list_in key (option_and_then item_texts (option_map (λ a. array_view a.now) array.entry))) }
{
    let Some(array) = array else {
        return Err(SettingsFault::WrongKind(key));
    };
    let Some(texts) = item_texts(alloc, array)? else {
        return Err(SettingsFault::WrongKind(key));
    };
    match new_texts(alloc, most_entries(key), &texts)? {
        Some(entries) if takes_all(key, &entries) => Ok(entries),
        _ => Err(SettingsFault::OutOfRange(key)),
    }
}

/// Reads the list of texts of a key that may be missing, each once.
pub(crate) fn optional_list(
    alloc: Global,
    table: &Table,
    key: Key,
) -> Result<Option<Vec<Text>>, SettingsFault>
    ensures { Gives (λ o. option_map (λ v. v.items) o) result (optional_list key (table_view table.now)) }
{
    match value_at(table, key) {
        None => Ok(None),
        Some(value) => {
            let entries = list_in(alloc, key, value.as_array())?;
            Ok(Some(entries))
        }
    }
}

/// Reads the list of texts of a key that must be there, each once.
pub(crate) fn list(alloc: Global, table: &Table, key: Key) -> Result<Vec<Text>, SettingsFault>
    ensures { Gives (λ v. v.items) result (list key (table_view table.now)) }
{
    let entries = optional_list(alloc, table, key)?;
    entries.ok_or(SettingsFault::Missing(key))
}

/// The tables of a key that must be there, 1 to `most`.
pub(crate) fn tables<'a>(
    alloc: Global,
    table: &'a Table,
    key: Key,
    most: usize,
) -> Result<Vec<&'a Table>, SettingsFault>
    ensures { Gives (λ v. map (λ t. table_view t.now) v.items) result (tables key most (table_view table.now)) }
{
    let Some(value) = value_at(table, key) else {
        return Err(SettingsFault::Missing(key));
    };
    let Some(array) = value.as_array() else {
        return Err(SettingsFault::WrongKind(key));
    };
    let Some(tables) = item_tables(alloc, array)? else {
        return Err(SettingsFault::WrongKind(key));
    };
    if 1 <= tables.len() && tables.len() <= most {
        Ok(tables)
    } else {
        Err(SettingsFault::OutOfRange(key))
    }
}

// Returns whether a name is that of one of the keys.
#[tactic(auto, unfolding(crate::specs::Entry::is_one_of))]
fn is_one_of(keys: &[Key], name: &str) -> bool
    ensures { result ≡ is_one_of keys.now name.now }
{
    keys.iter().any(|key| key.name() == name)
}

// The first key of a table, by its bytes, that isn't one of these.
fn other_key<'a>(table: &'a Table, keys: &[Key]) -> Option<&'a str>
    ensures { option_map (λ k. k.now) result ≡ other_key keys.now (table_view table.now) }
{
    for (key, _value) in table {
        if !is_one_of(keys, key.as_str()) {
            return Some(key.as_str());
        }
    }
    None
}

/// Checks that a table has only these keys. The first other key is its fault.
pub(crate) fn know_keys(alloc: Global, table: &Table, keys: &[Key]) -> Result<(), SettingsFault>
    ensures known { OnOk result (other_key keys.now (table_view table.now) ≡ None) }
    ensures refused { IfErr result (λ e. IfSome (fault_of e) (λ f. option_map unknown (other_key keys.now (table_view table.now)) ≡ Some f)) }
{
    match other_key(table, keys) {
        None => Ok(()),
        Some(name) => Err(SettingsFault::Unknown(Text::copy_of(alloc, name.as_bytes())?)),
    }
}
