//! Whether a connector's config may be taken.
ghost use Rattle.std.specs.Prelude.{◌≡◌, ◌↔◌, true, IfOk, IsTrue, OnOk, option_map, not};
ghost use Rattle.std.specs.Bool.{OnTrue};
ghost use Rattle.std.specs.List.{list_any};
ghost use Rattle.cw_types.specs.Answers.{Gives};
ghost use Rattle.cw_json.specs.Pairs.{value_in};
ghost use Rattle.cw_plugin.specs.Classes.{row_of, key_of};
ghost use Rattle.cw_plugin.specs.Checks.{checked, fault_of_class, is_name, is_among, first_failing, is_lacking};
ghost use Rattle.cw_plugin.specs.Checks.{missing_key, is_bad_number, is_value_bad, bad_key, bad_number};
ghost use Rattle.cw_plugin.specs.Checks.{feed_lacking_in, value_feed_lacking, feed_lacking, is_bad_name};
ghost use Rattle.cw_plugin.specs.Loaded.{is_loaded_by};
ghost use Rattle.cw_plugin.specs.Tasks.{IsFaultless};

use crate::class::{Class, Field, class_of, row_of};
use crate::fault::PluginFault;
use crate::lists::elements;
use crate::numbers::{batch_size, count, sequences, tasks_max};
use cw_json::{Props, Text};
use cw_types::Name;
use std::alloc::{AllocError, Global};

// Whether a required value is lacking.
fn is_lacking(props: &Props, field: Field) -> bool
    ensures { result ≡ is_lacking field (value_in props.now (key_of field)) }
{
    match props.get(field.key()) {
        Some(text) => field.is_list() && text.as_str().is_empty(),
        None => true,
    }
}

// The first required key that is lacking.
fn missing_key(props: &Props, fields: &[Field]) -> Option<&'static str>
    ensures { option_map (λ key. key.now) result ≡ missing_key props.now fields.now }
{
    for field in fields {
        if is_lacking(props, *field) {
            return Some(field.key());
        }
    }
    None
}

fn is_bad_number(props: &Props, field: Field) -> bool
    ensures { result ≡ is_value_bad (is_bad_number field) (value_in props.now (key_of field)) }
{
    let Some(text) = props.get(field.key()) else {
        return false;
    };
    match field {
        Field::Sequences => sequences(text).is_none(),
        Field::Count => count(text).is_none(),
        _ => false,
    }
}

// The first required key whose value is no number in its range, where one is due.
fn bad_required_number(props: &Props, fields: &[Field]) -> Option<&'static str>
    ensures { option_map (λ key. key.now) result ≡ bad_key is_bad_number props.now fields.now }
{
    for field in fields {
        if is_bad_number(props, *field) {
            return Some(field.key());
        }
    }
    None
}

// The first key whose value is no number in its range, where one is due.
fn bad_number(props: &Props, class: Class) -> Option<&'static str>
    ensures { option_map (λ key. key.now) result ≡ bad_number props.now (row_of class) }
{
    let row = row_of(class);
    if tasks_max(props).is_none() {
        return Some("tasks.max");
    }
    if !row.is_source {
        return bad_required_number(props, row.fields);
    }
    if batch_size(props).is_none() {
        return Some("batch.size");
    }
    bad_required_number(props, row.fields)
}

/// Which feeds a check takes as loaded.
#[derive(Clone, Copy, Drop)]
pub(crate) enum Loaded<'a> {
    /// These alone.
    These(&'a [Name]),
    /// All that have a name.
    Any,
}

fn is_one_of(feeds: &[Name], text: &Text) -> bool
    ensures among { result ≡ is_among feeds.now text.now }
    ensures named { OnTrue result (is_name text.now ≡ true) }
{
    for feed in feeds {
        if feed.as_bytes() == text.as_str().as_bytes() {
            return true;
        }
    }
    false
}

fn is_loaded(alloc: Global, feeds: Loaded<'_>, text: &Text) -> Result<bool, AllocError>
    ensures test { IfOk result (λ is. is ≡ is_loaded_by feeds.entry text.now) }
    ensures named { IfOk result (λ is. is ≡ true → is_name text.now ≡ true) }
{
    match feeds {
        Loaded::These(names) => Ok(is_one_of(names, text)),
        Loaded::Any => is_name(alloc, text),
    }
}

// The first of some feeds that isn't loaded.
fn first_unloaded(
    alloc: Global,
    feeds: Loaded<'_>,
    texts: &[Text],
) -> Result<Option<Text>, AllocError>
    ensures first { IfOk result (λ feed. feed ≡ first_failing (is_loaded_by feeds.entry) texts.now) }
    ensures named { IfOk result (λ feed. feed ≡ None → first_failing is_name texts.now ≡ None) }
{
    for text in texts {
        if !is_loaded(alloc, feeds, text)? {
            return Ok(Some(text.copy()?));
        }
    }
    Ok(None)
}

// The first feed in a value that isn't loaded.
fn feed_lacking_in(
    alloc: Global,
    feeds: Loaded<'_>,
    field: Field,
    text: &Text,
) -> Result<Option<Text>, AllocError>
    ensures first { IfOk result (λ feed. feed ≡ feed_lacking_in (is_loaded_by feeds.entry) field text.now) }
    ensures named { IfOk result (λ feed. feed ≡ None → feed_lacking_in is_name field text.now ≡ None) }
{
    match field {
        Field::Feed => {
            if is_loaded(alloc, feeds, text)? {
                Ok(None)
            } else {
                Ok(Some(text.copy()?))
            }
        }
        Field::Feeds => {
            let found = elements(alloc, text.as_str())?;
            first_unloaded(alloc, feeds, &found)
        }
        _ => Ok(None),
    }
}

fn value_feed_lacking(
    alloc: Global,
    feeds: Loaded<'_>,
    props: &Props,
    field: Field,
) -> Result<Option<Text>, AllocError>
    ensures first { IfOk result (λ feed.
        feed ≡ value_feed_lacking (is_loaded_by feeds.entry) field (value_in props.now (key_of field))) }
    ensures named { IfOk result (λ feed.
        feed ≡ None → value_feed_lacking is_name field (value_in props.now (key_of field)) ≡ None) }
{
    match props.get(field.key()) {
        Some(text) => feed_lacking_in(alloc, feeds, field, text),
        None => Ok(None),
    }
}

// The first feed that isn't loaded.
fn feed_lacking(
    alloc: Global,
    feeds: Loaded<'_>,
    props: &Props,
    fields: &[Field],
) -> Result<Option<Text>, AllocError>
    ensures first { IfOk result (λ feed. feed ≡ feed_lacking (is_loaded_by feeds.entry) props.now fields.now) }
    ensures named { IfOk result (λ feed. feed ≡ None → feed_lacking is_name props.now fields.now ≡ None) }
{
    for field in fields {
        if let Some(feed) = value_feed_lacking(alloc, feeds, props, *field)? {
            return Ok(Some(feed));
        }
    }
    Ok(None)
}

// Whether a text is a name.
fn is_name(alloc: Global, text: &Text) -> Result<bool, AllocError>
    ensures { IfOk result (λ is. is ≡ is_name text.now) }
{
    Ok(Name::from_bytes(alloc, text.as_str().as_bytes())?.is_some())
}

// Whether some text is no name.
fn any_is_no_name(alloc: Global, texts: &[Text]) -> Result<bool, AllocError>
    ensures { IfOk result (λ is. is ≡ list_any (λ e. not (is_name e)) texts.now) }
{
    for text in texts {
        if !is_name(alloc, text)? {
            return Ok(true);
        }
    }
    Ok(false)
}

fn is_bad_name_in(alloc: Global, field: Field, text: &Text) -> Result<bool, AllocError>
    ensures { IfOk result (λ bad. bad ≡ is_bad_name field text.now) }
{
    match field {
        Field::Topic | Field::Outlet => Ok(!is_name(alloc, text)?),
        Field::Topics => {
            let found = elements(alloc, text.as_str())?;
            any_is_no_name(alloc, &found)
        }
        _ => Ok(false),
    }
}

fn is_bad_name(alloc: Global, props: &Props, field: Field) -> Result<bool, AllocError>
    ensures { IfOk result (λ bad. bad ≡ is_value_bad (is_bad_name field) (value_in props.now (key_of field))) }
{
    match props.get(field.key()) {
        Some(text) => is_bad_name_in(alloc, field, text),
        None => Ok(false),
    }
}

// The first key whose value is no name, or has an element that is none, where names are due.
fn bad_name(
    alloc: Global,
    props: &Props,
    fields: &[Field],
) -> Result<Option<&'static str>, AllocError>
    ensures { IfOk result (λ key. option_map (λ it. it.now) key ≡ bad_key is_bad_name props.now fields.now) }
{
    for field in fields {
        if is_bad_name(alloc, props, *field)? {
            return Ok(Some(field.key()));
        }
    }
    Ok(None)
}

// The first fault of properties of a class.
fn fault_of_class(
    alloc: Global,
    props: &Props,
    feeds: Loaded<'_>,
    class: Class,
) -> Result<Option<PluginFault>, AllocError>
    ensures first { IfOk result (λ fault. fault ≡ fault_of_class (is_loaded_by feeds.entry) props.now (row_of class)) }
    ensures named { IfOk result (λ fault. fault ≡ None → fault_of_class is_name props.now (row_of class) ≡ None) }
{
    let fields = row_of(class).fields;
    if let Some(key) = missing_key(props, fields) {
        return Ok(Some(PluginFault::Missing(Text::of(alloc, key)?)));
    }
    if let Some(key) = bad_number(props, class) {
        return Ok(Some(PluginFault::BadInt(Text::of(alloc, key)?)));
    }
    if let Some(feed) = feed_lacking(alloc, feeds, props, fields)? {
        return Ok(Some(PluginFault::NoFeed(feed)));
    }
    match bad_name(alloc, props, fields)? {
        Some(key) => Ok(Some(PluginFault::BadName(Text::of(alloc, key)?))),
        None => Ok(None),
    }
}

// The class of properties, or their first fault.
fn checked(alloc: Global, props: &Props, feeds: Loaded<'_>) -> Result<Class, PluginFault>
    ensures class { Gives PluginFault.Memory result (checked (is_loaded_by feeds.entry) props.now) }
    ensures faultless { OnOk result (IsFaultless props.now) }
{
    let Some(text) = props.get("connector.class") else {
        return Err(PluginFault::NoClass);
    };
    let Some(class) = class_of(text.as_str()) else {
        return Err(PluginFault::UnknownClass);
    };
    match fault_of_class(alloc, props, feeds, class)? {
        Some(fault) => Err(fault),
        None => Ok(class),
    }
}

/// The class of a connector's config, or the first fault that it has, where these feeds are loaded.
/// The faults come in the order of `PluginFault`; in each, required keys come in the order of the
/// class's row, and numbers in the order `tasks.max`, `batch.size`, `partitions`, `count`.
pub fn check_config(alloc: Global, props: &Props, feeds: &[Name]) -> Result<Class, PluginFault>
    ensures class { Gives PluginFault.Memory result (checked (is_among feeds.now) props.now) }
    ensures faultless { OnOk result (IsFaultless props.now) }
{
    checked(alloc, props, Loaded::These(feeds))
}

/// Whether a connector's config is one in which `check_config` would meet no fault, were each feed that it
/// names loaded. Such a config stands in the config log, and has tasks, while its feeds may be gone.
#[tactic(auto, unfolding(crate::specs::Tasks::IsFaultless))]
pub fn is_faultless(alloc: Global, props: &Props) -> Result<bool, AllocError>
    ensures { IfOk result (λ is. IsTrue is ↔ IsFaultless props.now) }
{
    match checked(alloc, props, Loaded::Any) {
        Ok(_) => Ok(true),
        Err(PluginFault::Memory) => Err(AllocError),
        Err(_) => Ok(false),
    }
}
