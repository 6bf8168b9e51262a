//! What the tasks of a connector share out, and the share of each.
ghost use Rattle.std.specs.Prelude.{◌≡◌, ◌<◌, ◌∷◌, [], IfOk, OnOk, decimal, map};
ghost use Rattle.std.specs.List.{join_with_byte, range_with_len};
ghost use Rattle.cw_plugin.specs.Classes.{row_of};
ghost use Rattle.cw_plugin.specs.Tasks.{add_once, once, parted, parted_up_to, shared_in, shares, share_count};

use crate::class::{Class, Field, row_of};
use crate::lists::{elements, is_one_of};
use crate::numbers::{sequences, tasks_max};
use cw_json::{Props, Text};
use std::alloc::{AllocError, Global};

// Adds a text unless it is there.
fn add_once(found: &mut Vec<Text>, text: &Text) -> Result<(), AllocError>
    ensures { OnOk result (found.new.items ≡ add_once found.old.items text.now) }
{
    if is_one_of(found, text.as_str()) {
        return Ok(());
    }
    found.push(text.copy()?)?;
    Ok(())
}

// The texts, a repeat left out.
fn once(alloc: Global, texts: &[Text]) -> Result<Vec<Text>, AllocError>
    ensures { IfOk result (λ found. found.items ≡ once texts.now) }
{
    let mut found = Vec::new(alloc);
    for text in texts {
        add_once(&mut found, text)?;
    }
    Ok(found)
}

// The numbers from 0, so many.
fn numbers(alloc: Global, count: u32) -> Result<Vec<Text>, AllocError>
    ensures { IfOk result (λ texts. texts.items ≡ map decimal (range_with_len 0 count)) }
{
    let mut texts = Vec::new(alloc);
    for number in 0..count {
        texts.push(Text::new(number.to_string(alloc)?))?;
    }
    Ok(texts)
}

// What tasks share out, by the value of the list.
fn shared_in(alloc: Global, field: Field, text: &Text) -> Result<Vec<Text>, AllocError>
    ensures { IfOk result (λ texts. texts.items ≡ shared_in field text.now) }
{
    match field {
        Field::Feeds | Field::Topics => {
            let found = elements(alloc, text.as_str())?;
            once(alloc, &found)
        }
        Field::Sequences => numbers(alloc, sequences(text).unwrap_or(0)),
        Field::Feed | Field::Count | Field::Topic | Field::Outlet => Ok(Vec::new(alloc)),
    }
}

// Some texts, parted by commas.
fn joined(alloc: Global, texts: &[Text]) -> Result<Text, AllocError>
    ensures { IfOk result (λ text. text ≡ join_with_byte 44 texts.now) }
{
    let mut text = String::new(alloc);
    let Some((first, behind)) = texts.split_first() else {
        return Ok(Text::new(text));
    };
    text.push_str(first.as_str())?;
    for next in behind {
        text.push(',')?;
        text.push_str(next.as_str())?;
    }
    Ok(Text::new(text))
}

// The texts of a number of groups, as even as may be: the first ones have one more.
fn parted(alloc: Global, count: usize, texts: &[Text]) -> Result<Vec<Text>, AllocError>
    requires { 0 < count }
    ensures { IfOk result (λ groups. groups.items ≡ parted count texts.now) }
{
    let least = texts.len() / count;
    let more = texts.len() % count;
    let mut groups = Vec::new(alloc);
    let mut rest = texts;
    for index in 0..count {
        let (group, behind) = rest.split_at(least + usize::from(index < more));
        groups.push(joined(alloc, group)?)?;
        rest = behind;
    }
    Ok(groups)
}

// As many groups as there may be tasks, where there are as many texts.
fn parted_up_to(alloc: Global, most: u32, texts: &[Text]) -> Result<Vec<Text>, AllocError>
    ensures { IfOk result (λ groups. groups.items ≡ parted_up_to most texts.now) }
{
    let count = texts.len().min(most as usize);
    if count == 0 {
        return Ok(Vec::new(alloc));
    }
    parted(alloc, count, texts)
}

// How many tasks there may be.
fn share_count(props: &Props) -> u32
    ensures { result ≡ share_count props.now }
{
    tasks_max(props).unwrap_or(1)
}

// The one share of a task that shares nothing.
fn lone_share(alloc: Global) -> Result<Vec<Text>, AllocError>
    ensures { IfOk result (λ texts. texts.items ≡ [] ∷ []) }
{
    let mut shares = Vec::new(alloc);
    shares.push(Text::of(alloc, "")?)?;
    Ok(shares)
}

// What each task of a class has of what its class's tasks share out.
pub(crate) fn shares(alloc: Global, props: &Props, class: Class) -> Result<Vec<Text>, AllocError>
    ensures { IfOk result (λ texts. texts.items ≡ shares props.now (row_of class).shared) }
{
    let Some(field) = row_of(class).shared else {
        return lone_share(alloc);
    };
    match props.get(field.key()) {
        Some(text) => {
            let texts = shared_in(alloc, field, text)?;
            parted_up_to(alloc, share_count(props), &texts)
        }
        None => Ok(Vec::new(alloc)),
    }
}
